// The law of planes: support planes with up to two coordinates fixed are planes of the grid, as are
// edge planes.
ghost use Rattle.std.specs.Prelude.{ℕ, ◌+◌, ℤ};
ghost use Rattle.ember_algebra.specs.Size.{Small};
ghost use Rattle.ember_model.specs.declared.plane.Plane.{Plane};
ghost use Rattle.ember_model.specs.declared.point.Axis.{Axis};
ghost use Rattle.ember_model.specs.Within.{IsSupportWithin, IsEdgeWithin, IsPlaneWithin};
ghost use Rattle.ember_point.specs.Points.{slid};

/// Support planes and edge planes of triangles within a limit are planes within it, and so are
/// support planes with one or two coordinates fixed to numbers that exceed it by at most 1.
pub fn planes_of_triangles_are_within()
    ensures edges { (m : ℕ) (p : Plane) → IsEdgeWithin m p → IsPlaneWithin m p }
    ensures supports { (m : ℕ) (p : Plane) → IsSupportWithin m p → IsPlaneWithin m p }
    ensures slid_once { (m : ℕ) (p : Plane) (k : Axis) (s : ℤ) → IsSupportWithin m p → Small (m + 1) s →
        IsPlaneWithin m (slid p k s) }
    ensures slid_twice { (m : ℕ) (p : Plane) (j k : Axis) (s t : ℤ) → IsSupportWithin m p → Small (m + 1) s →
        Small (m + 1) t → IsPlaneWithin m (slid (slid p j s) k t) }
{}
