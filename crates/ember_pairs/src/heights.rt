// The heights of triangles over planes of each other: small enough to be multiplied in 64 bits.
ghost use Rattle.std.specs.Prelude.{◌≡◌};
ghost use Rattle.ember_model.specs.Valid.{IsValidTri, IsValidPlane};
ghost use Rattle.ember_width.specs.Heights.{heights_of};
ghost use Rattle.ember_pairs.specs.Heights.{AreSmall, are_on_one_side, lean_to_one_side};

use ember_model::{Plane, Tri};
use ember_width::{Heights, heights_of};

/// The heights of two triangles over each other's planes: of the second over the plane of the first,
/// and of the first over that of the second.
#[derive(Clone, Copy)]
pub struct PlaneHeights {
    pub theirs: Heights,
    pub own: Heights,
}

/// The heights of the corners of a valid triangle over a valid plane.
pub fn small_heights(p: &Plane, t: &Tri) -> Heights
    requires plane { IsValidPlane p.now }
    requires tri { IsValidTri t.now }
    ensures value { result ≡ heights_of p.now t.now }
    ensures small { AreSmall result }
{
    heights_of(p, t)
}

/// Whether all corners are strictly on one side of the plane.
pub fn are_on_one_side(heights: &Heights) -> bool
    ensures { result ≡ are_on_one_side heights.now }
{
    heights.all_in_front() || heights.all_behind()
}

/// Whether the corners are on one side of the plane or on it, and not all are on it.
pub fn lean_to_one_side(heights: &Heights) -> bool
    ensures { result ≡ lean_to_one_side heights.now }
{
    (heights.none_in_front() || heights.none_behind()) && !heights.all_on()
}
