// The corners of a triangle: which of them another one has too, and which lie beyond two planes.
ghost use Rattle.std.specs.Prelude.{◌≡◌};
ghost use Rattle.ember_alone.specs.Parting.{has_corner, common_corners};
ghost use Rattle.ember_alone.specs.Parting.{is_beyond, is_some_in_front, are_beyond};

use ember_model::{Corner, Tri, is_same_corner};
use ember_width::Heights;

/// Which corners of a triangle another one has too.
#[derive(Clone, Copy)]
pub struct CommonCorners {
    pub a: bool,
    pub b: bool,
    pub c: bool,
}

// Whether the corner is one of the triangle's.
fn has_corner(t: &Tri, c: &Corner) -> bool
    ensures { result ≡ has_corner t.now c.now }
{
    is_same_corner(c, &t.a) || (is_same_corner(c, &t.b) || is_same_corner(c, &t.c))
}

/// Which corners of `u` are corners of `t` too.
pub fn common_corners(t: &Tri, u: &Tri) -> CommonCorners
    ensures { result ≡ common_corners t.now u.now }
{
    CommonCorners {
        a: has_corner(t, &u.a),
        b: has_corner(t, &u.b),
        c: has_corner(t, &u.c),
    }
}

// Whether a corner with these heights over two planes lies in front of the first; or on it and in
// front of the second; or on both, and it is common.
fn is_beyond(first: i64, second: i64, common: bool) -> bool
    ensures { result ≡ is_beyond first second common }
{
    first > 0 || (first == 0 && (second > 0 || (second == 0 && common)))
}

// Whether some corner lies in front of the plane.
fn is_some_in_front(heights: &Heights) -> bool
    ensures { result ≡ is_some_in_front heights.now }
{
    heights.a > 0 || (heights.b > 0 || heights.c > 0)
}

/// Whether each corner lies beyond two planes, and some in front of one of them, by the heights of
/// the corners over the planes.
pub fn are_beyond(first: &Heights, second: &Heights, common: &CommonCorners) -> bool
    ensures { result ≡ are_beyond first.now second.now common.now }
{
    (is_beyond(first.a, second.a, common.a)
        && (is_beyond(first.b, second.b, common.b) && is_beyond(first.c, second.c, common.c)))
        && (is_some_in_front(first) || is_some_in_front(second))
}
