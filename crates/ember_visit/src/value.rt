// What is known of an expression in a whole box.
ghost use Rattle.std.specs.Prelude.{◌≡◌, ◌<◌, ℕ, ℤ, List, length, All, IfSome};
ghost use Rattle.ember_model.specs.Meshes.{HasMesh};
ghost use Rattle.ember_expr.specs.Formula.{formula_of, IsMeshNumber};
ghost use Rattle.ember_expr.specs.Truth.{AreCounts, truth};
ghost use Rattle.ember_known.specs.Masks.{is_in};
ghost use Rattle.ember_known.specs.Laws.{AgreeOutside};
ghost use Rattle.ember_box.specs.Near.{listed};
ghost use Rattle.ember_visit.specs.Jobs.{near_of};
ghost use Rattle.ember_visit.specs.Values as values;
ghost use Rattle.ember_visit.specs.Values.{has_mesh};

use ember_expr::Expr;
use ember_job::Job;
use ember_known::{Mask, known};
use ember_model::{Scene, Tri};

// The meshes of the listed triangles.
fn meshes_of(tris: &[Tri], list: &[u32]) -> Mask
    requires numbered { All (HasMesh 64) tris.now }
    requires places { All (λ i. i < length tris.now) list.now }
    ensures { (n : ℕ) → IsMeshNumber 64 n → is_in result.0 n ≡ has_mesh (listed tris.now list.now) n }
{
    let mut meshes = Mask::none();
    for i in list {
        meshes = meshes.with(tris[*i as usize].mesh);
    }
    meshes
}

/// The value of the expression in the whole box of a job, or `None` if it isn't known, for the
/// triangles of a scene on any grid. A mesh with a triangle in the job's list is undecided; the other
/// meshes have the job's winding numbers. A known value is the expression's truth at each vector that
/// agrees with the job's in those other meshes. Meshes are numbered from 1 to 64. The list has indices
/// of the triangles, and each winding number is at most 2^24 in size.
#[tactic(none)]
pub fn box_value_among(e: &Expr, tris: &[Tri], job: &Job) -> Option<bool>
    requires numbered { All (HasMesh 64) tris.now }
    requires places { All (λ i. i < length tris.now) job.now.list }
    requires counts { AreCounts job.now.at.counts }
    ensures value { result ≡ values.box_value tris.now (formula_of e.now) job.now }
    ensures law { IfSome result (λ b. (others : List ℤ) →
        AgreeOutside (has_mesh (near_of tris.now job.now)) job.now.at.counts others →
        truth others (formula_of e.now) ≡ b) }
{
    known(e, &job.at, &meshes_of(tris, job.list.items()))
}

/// The same as `box_value_among`, for the triangles of a scene.
pub fn box_value(e: &Expr, s: &Scene, job: &Job) -> Option<bool>
    requires places { All (λ i. i < length s.now.tris) job.now.list }
    requires counts { AreCounts job.now.at.counts }
    ensures value { result ≡ values.box_value s.now.tris (formula_of e.now) job.now }
    ensures law { IfSome result (λ b. (others : List ℤ) →
        AgreeOutside (has_mesh (near_of s.now.tris job.now)) job.now.at.counts others →
        truth others (formula_of e.now) ≡ b) }
{
    box_value_among(e, s.tris.items(), job)
}
