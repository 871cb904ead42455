// Whether two triangles may touch: two planes of one face may part them.
ghost use Rattle.std.specs.Prelude.{◌≡◌, false};
ghost use Rattle.std.specs.List.{list_any};
ghost use Rattle.ember_model.specs.Limits.{broad_limit};
ghost use Rattle.ember_model.specs.Planes.{support_of};
ghost use Rattle.ember_model.specs.Within.{IsTriWithin};
ghost use Rattle.ember_alone.specs.Parting.{are_beyond, are_beyond_some, heights_over, is_parted, may_touch};
ghost use Rattle.ember_alone.specs.Touch.{Conform};

use crate::corners::{CommonCorners, are_beyond, common_corners};
use ember_model::{Plane, Tri, has_no_normal, main_edges, support_of};
use ember_width::{Heights, heights_of};

// The heights of `u` over the planes of the face of `t`: over its support plane with either front,
// and over its edge planes. Requires its support plane.
fn heights_over(t: &Tri, support: &Plane, u: &Tri) -> [Heights; 5]
    requires one { IsTriWithin broad_limit t.now }
    requires other { IsTriWithin broad_limit u.now }
    requires support { support.now ≡ support_of t.now }
    ensures { result ≡ heights_over t.now u.now }
{
    let [ab, bc, ca] = main_edges(t, support);
    let above = heights_of(support, u);
    [
        above,
        above.opposite(),
        heights_of(&ab, u),
        heights_of(&bc, u),
        heights_of(&ca, u),
    ]
}

// Whether the corners lie beyond this plane and one of the others.
fn are_beyond_with_some(first: &Heights, heights: &[Heights], common: &CommonCorners) -> bool
    ensures { result ≡ list_any (λ w. are_beyond first.now w common.now) heights.now }
{
    for second in heights {
        if are_beyond(first, second, common) {
            return true;
        }
    }
    false
}

// Whether the corners lie beyond two of the planes, which may be one.
fn are_beyond_some(heights: &[Heights], common: &CommonCorners) -> bool
    ensures { result ≡ are_beyond_some heights.now common.now }
{
    for first in heights {
        if are_beyond_with_some(first, heights, common) {
            return true;
        }
    }
    false
}

// Whether two planes of the face of `t` part the triangles. Requires the support plane of `t`.
fn is_parted(t: &Tri, support: &Plane, u: &Tri) -> bool
    requires one { IsTriWithin broad_limit t.now }
    requires other { IsTriWithin broad_limit u.now }
    requires support { support.now ≡ support_of t.now }
    ensures { result ≡ is_parted t.now u.now }
{
    are_beyond_some(&heights_over(t, support, u), &common_corners(t, u))
}

/// Whether two triangles may touch. If not, they conform: their closed faces share no points but
/// those of a common corner or a common edge. The test says no if one of the triangles is flat, or
/// if two planes of one face part them: the support plane, with either front, or edge planes. Each
/// corner of the other triangle lies in front of the first plane; or on it and in front of the
/// second; or on both, and is common; and some corner lies in front of one. The test says yes of some
/// triangles that conform.
pub fn may_touch(t: &Tri, u: &Tri) -> bool
    requires one { IsTriWithin broad_limit t.now }
    requires other { IsTriWithin broad_limit u.now }
    ensures value { result ≡ may_touch t.now u.now }
    ensures conform { result ≡ false → Conform t.now u.now }
{
    let first = support_of(t);
    let second = support_of(u);
    !has_no_normal(&first)
        && (!has_no_normal(&second) && (!is_parted(t, &first, u) && !is_parted(u, &second, t)))
}
