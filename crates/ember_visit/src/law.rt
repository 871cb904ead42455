// The laws of jobs: of their halves, and of what is known of their boxes.
ghost use Rattle.std.specs.Prelude.{◌≡◌, ℕ, ◌<◌, Bool, List, Some};
ghost use Rattle.ember_algebra.specs.Vector.{Vector};
ghost use Rattle.ember_model.specs.declared.tri.Tri.{Tri};
ghost use Rattle.ember_model.specs.declared.point.Axis.{Axis};
ghost use Rattle.ember_model.specs.declared.point.Axis.TheVariants.{X};
ghost use Rattle.ember_model.specs.Meshes.{IsScene, vector};
ghost use Rattle.ember_expr.specs.Formula.{Formula, IsFit};
ghost use Rattle.ember_expr.specs.Truth.{truth};
ghost use Rattle.ember_box.specs.Reference.{reference_at};
ghost use Rattle.ember_job.specs.declared.job.Job.{Job};
ghost use Rattle.ember_visit.specs.Jobs.{IsJob, root_job, left_job, right_job};
ghost use Rattle.ember_visit.specs.Values.{box_value, HasCorner};

/// The root's job has the triangles near its box and the winding numbers at its reference point,
/// and so have the halves of such a job along each axis along which it may be halved.
pub fn halves_of_a_job_are_jobs()
    ensures root { (ts : List Tri) (meshes : ℕ) → IsScene ts meshes → IsJob ts (root_job ts) }
    ensures halves { (ts : List Tri) (meshes : ℕ) (job : Job) (k : Axis) → IsScene ts meshes → IsJob ts job →
        0 < job.cell.log k → IsJob ts (left_job ts job k) × IsJob ts (right_job ts job k) }
{}

/// If the value of a box is known, the expression has this value at `reference_at v`, the reference
/// point of a box with the least corner `v`, for each corner `v` in the half-open box.
pub fn known_values_are_true()
    ensures { (ts : List Tri) (meshes : ℕ) (f : Formula) (job : Job) (known : Bool) (v : Vector) →
        IsScene ts meshes → IsFit 64 f → IsJob ts job → box_value ts f job ≡ Some known → HasCorner job.cell v →
        truth (vector X ts (reference_at v)) f ≡ known }
{}
