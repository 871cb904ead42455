// The laws of rings: their planes are those of their grid, and they are bounded. In their contracts
// `PlaneView` is the view of a plane.
ghost use Rattle.std.specs.Prelude.{All};
ghost use Rattle.ember_model.specs.declared.plane.Plane.{Plane as PlaneView};
ghost use Rattle.ember_model.specs.Valid.{IsValidFace};
ghost use Rattle.ember_poly.specs.Bounds.{IsBoundedBy};

use crate::ring::Ring;
use ember_width::Width;

/// All planes of a ring are planes of its grid, and its closed face is bounded: the value of every
/// plane is greatest at one of its points.
pub fn rings_are_bounded<W: Width>(r: &Ring<W>)
    ensures support { W.IsPlane (r.now).support }
    ensures edges { All W.IsPlane (r.now).edges }
    ensures bounded { (p : PlaneView) → IsBoundedBy p r.now }
{
    // Reads a field only so that the prover knows the invariant of a ring.
    let _support = r.support;
}

/// On the narrow grid: all planes of a ring are valid, and its closed face is bounded: the value of
/// every plane is greatest at one of its points.
pub fn rings_are_valid_and_bounded(r: &Ring)
    ensures valid { IsValidFace r.now }
    ensures bounded { (p : PlaneView) → IsBoundedBy p r.now }
{
    rings_are_bounded(r)
}
