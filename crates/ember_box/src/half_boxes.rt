// Whether a triangle whose bounding box meets a box is near the halves of the box along one axis:
// for `near_halves`, which `voxels` uses. near_parts.rt does it for all axes at once, and uses only
// `plane_to_test` of this file.
ghost use Rattle.std.specs.Prelude.{◌≡◌, ◌<◌};
ghost use Rattle.ember_model.specs.Limits.{broad_limit};
ghost use Rattle.ember_model.specs.Within.{IsTriWithin};
ghost use Rattle.ember_box.specs.Aabbs.{aabb_of_tri};
ghost use Rattle.ember_box.specs.Sums.{IsPlaneOf, IsPlaneSized, meets_left, meets_right, AreHalves, AreHalvesSized};

use crate::aabb::{Aabb, Interval, aabb_of_cell, contains_aabb, crosses, has_zero_extent};
use crate::cell::{Cell, halves};
use ember_model::{Axis, Plane, Tri, support_of};

/// The plane to test, of a triangle with the bounding box `spans`. None if the triangle lies in the
/// box, or in a plane perpendicular to an axis: then it is near each half that its bounding box
/// meets, so bounding boxes alone decide.
pub fn plane_to_test(whole: &Aabb, spans: &Aabb, t: &Tri) -> Option<Plane>
    requires tri { IsTriWithin broad_limit t.now }
    requires spans { spans.now ≡ aabb_of_tri t.now }
    ensures value { IsPlaneOf whole.now t.now result }
    ensures sized { IsPlaneSized result }
{
    if has_zero_extent(spans) || contains_aabb(whole, spans) {
        None
    } else {
        Some(support_of(t))
    }
}

// The bounding boxes of the left and the right half of a box along an axis, and the coordinate at
// which they touch.
#[derive(Clone, Copy)]
pub struct HalfBoxes {
    pub left: Aabb,
    pub right: Aabb,
    pub middle: i32,
}

/// The bounding boxes of the two halves of a box along the axis. Requires that the box's side along
/// it exceeds 1.
pub fn half_boxes_of(c: &Cell, k: Axis) -> HalfBoxes
    requires { 0 < c.now.log k }
    ensures value { AreHalves c.now k result }
    ensures sized { AreHalvesSized result }
{
    let (left, right) = halves(c, k);
    HalfBoxes {
        left: aabb_of_cell(&left),
        right: aabb_of_cell(&right),
        middle: right.low(k),
    }
}

/// Whether a triangle, whose bounding box meets the whole box, is near the left half: its interval
/// `span` along the axis of the halves begins no later than that half ends, and the plane to test,
/// if any, crosses the half.
pub fn meets_left(halves: &HalfBoxes, span: &Interval, plane: &Option<Plane>) -> bool
    requires halves { AreHalvesSized halves.now }
    requires plane { IsPlaneSized plane.now }
    ensures { result ≡ meets_left halves.now span.now plane.now }
{
    match plane {
        None => span.low <= halves.middle,
        Some(p) => span.low <= halves.middle && crosses(p, &halves.left),
    }
}

/// Whether such a triangle is near the right half: its interval ends no earlier than that half
/// begins, and the plane to test, if any, crosses the half.
pub fn meets_right(halves: &HalfBoxes, span: &Interval, plane: &Option<Plane>) -> bool
    requires halves { AreHalvesSized halves.now }
    requires plane { IsPlaneSized plane.now }
    ensures { result ≡ meets_right halves.now span.now plane.now }
{
    match plane {
        None => halves.middle <= span.high,
        Some(p) => halves.middle <= span.high && crosses(p, &halves.right),
    }
}
