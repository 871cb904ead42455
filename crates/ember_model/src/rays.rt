// Crossings of rays with faces and triangles.
ghost use Rattle.std.specs.Prelude.{◌≡◌, ◌^◌, ◌*ℤ◌, neg_ℤ, pos, ◌&&◌, if◌then◌else◌};
ghost use Rattle.ember_algebra.specs.Size.{Small};
ghost use Rattle.ember_algebra.specs.Sign.{sign, is_negative, is_positive};
ghost use Rattle.ember_model.specs.Limits.{valid_normal_limit};
ghost use Rattle.ember_model.specs.Valid.{IsValidTri, IsValidSpot, IsValidFace};
ghost use Rattle.ember_model.specs.Points.{DifferAlong};
ghost use Rattle.ember_model.specs.Rays.{IsRayPointSized};
ghost use Rattle.ember_model.specs.Faces.{size, crossing, leg, face_of};

use crate::face::Face;
use crate::point::{Axis, Spot};
use crate::tri::Tri;
use crate::triangle_planes::{component, support_of};
use crate::values::{RayPoint, all_negative, edge_value, plane_value};
use crate::vector3::sign_number;

/// Whether a ray meets a plane that has the value `front` at its start and the entry `slope` of its
/// normal along the ray. False if the ray starts on the plane or is parallel to it.
pub fn meets(front: i128, slope: i64) -> bool
    requires front { Small (2 ^ 80) front }
    requires slope { Small valid_normal_limit slope }
    ensures { result ≡ is_negative (front *ℤ slope) }
{
    (front < 0 && slope > 0) || (front > 0 && slope < 0)
}

/// The point at which such a ray along the axis meets the plane. It has no meaning if `meets` is
/// false.
#[tactic(none)]
pub fn hit_on_ray(front: i128, slope: i64, axis: Axis) -> RayPoint
    requires front { Small (2 ^ 80) front }
    requires slope { Small valid_normal_limit slope }
    ensures value { result ≡ record { axis = axis; factor = size slope; offset = neg_ℤ (sign slope *ℤ front) } }
    ensures sized { IsRayPointSized result }
{
    let s = sign_number(slope);
    RayPoint {
        axis,
        factor: s * slope,
        offset: -(s as i128 * front),
    }
}

/// The signed crossing of the ray from `p` along the axis with the inside of the face: 1, -1
/// or 0, and 1 if the ray leaves through the front. Only tests call this.
pub fn face_crossing(p: &Spot, a: Axis, f: &Face) -> i32
    requires spot { IsValidSpot p.now }
    requires face { IsValidFace f.now }
    ensures value { result ≡ crossing f.now a p.now }
    ensures small { Small 1 result }
{
    let front = plane_value(&f.support, p);
    let slope = component(&f.support, a);
    if meets(front, slope) && all_negative(f.edges.items(), p, &hit_on_ray(front, slope, a)) {
        sign_number(slope) as i32
    } else {
        0
    }
}

// Whether all four values are negative.
#[tactic(none)]
fn all_below(s: i128, e: i128, f: i128, g: i128) -> bool
    requires s { Small (2 ^ 80) s }
    requires e { Small (2 ^ 66) e }
    requires f { Small (2 ^ 66) f }
    requires g { Small (2 ^ 66) g }
    ensures { result ≡ is_negative s && (is_negative e && (is_negative f && is_negative g)) }
{
    s < 0 && (e < 0 && (f < 0 && g < 0))
}

// Whether all four values are positive.
fn all_above(s: i128, e: i128, f: i128, g: i128) -> bool
    requires s { Small (2 ^ 80) s }
    requires e { Small (2 ^ 66) e }
    requires f { Small (2 ^ 66) f }
    requires g { Small (2 ^ 66) g }
    ensures { result ≡ is_positive s && (is_positive e && (is_positive f && is_positive g)) }
{
    s > 0 && (e > 0 && (f > 0 && g > 0))
}

/// The signed crossing of the ray from `p` along the axis with the inside of the triangle's
/// face: 1, -1 or 0, and 1 if the ray leaves through the front. A triangle whose normal is
/// zero has no inside.
pub fn crossing(p: &Spot, a: Axis, t: &Tri) -> i32
    requires spot { IsValidSpot p.now }
    requires tri { IsValidTri t.now }
    ensures value { result ≡ crossing (face_of t.now) a p.now }
    ensures small { Small 1 result }
{
    let n = support_of(t);
    let front = plane_value(&n, p);
    let slope = component(&n, a);
    let e = edge_value(&t.a, &t.b, a, p);
    let f = edge_value(&t.b, &t.c, a, p);
    let g = edge_value(&t.c, &t.a, a, p);
    if slope > 0 {
        if all_below(front, e, f, g) { 1 } else { 0 }
    } else if slope < 0 {
        if all_above(front, e, f, g) { -1 } else { 0 }
    } else {
        0
    }
}

// Whether the three edge planes parallel to an axis are negative. `slope` is the entry of the
// triangle's normal along it; `e`, `f` and `g` are the planes' values, still without the sign of
// `slope`.
fn all_behind(slope: i64, e: i128, f: i128, g: i128) -> bool
    requires e { Small (2 ^ 66) e }
    requires f { Small (2 ^ 66) f }
    requires g { Small (2 ^ 66) g }
    ensures { result ≡ is_negative (sign slope *ℤ e) &&
        (is_negative (sign slope *ℤ f) && is_negative (sign slope *ℤ g)) }
{
    if slope > 0 {
        e < 0 && (f < 0 && g < 0)
    } else if slope < 0 {
        e > 0 && (f > 0 && g > 0)
    } else {
        false
    }
}

// How a segment crosses a plane that has the values `start` and `end` at its ends: 1 if it goes to
// the front, -1 if it goes to the back, otherwise 0.
fn signed_crossing(start: i128, end: i128) -> i32
    requires start { Small (2 ^ 80) start }
    requires end { Small (2 ^ 80) end }
    ensures value { result ≡ (if is_negative (start *ℤ end) then sign end else pos 0) }
    ensures small { Small 1 result }
{
    if start < 0 && end > 0 {
        1
    } else if start > 0 && end < 0 {
        -1
    } else {
        0
    }
}

/// The signed crossing of the segment from `p` to `q` with the inside of the triangle's face: 1 if
/// the segment from `p` to `q` leaves through the front, -1 if it enters through it, otherwise 0.
/// As points of space `p` and `q` differ at most in the coordinate of the axis.
pub fn leg(p: &Spot, q: &Spot, a: Axis, t: &Tri) -> i32
    requires from { IsValidSpot p.now }
    requires to { IsValidSpot q.now }
    requires line { DifferAlong a p.now q.now }
    requires tri { IsValidTri t.now }
    ensures value { result ≡ leg (face_of t.now) p.now q.now }
    ensures small { Small 1 result }
{
    let n = support_of(t);
    let slope = component(&n, a);
    let e = edge_value(&t.a, &t.b, a, p);
    let f = edge_value(&t.b, &t.c, a, p);
    let g = edge_value(&t.c, &t.a, a, p);
    if all_behind(slope, e, f, g) {
        signed_crossing(plane_value(&n, p), plane_value(&n, q))
    } else {
        0
    }
}
