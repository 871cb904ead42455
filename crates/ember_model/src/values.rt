// Values of planes at points, and their signs.
ghost use Rattle.std.specs.Prelude.{◌≡◌, ◌^◌, ◌-ℤ◌, ◌*ℤ◌, All};
ghost use Rattle.ember_model.specs.Limits.{narrow_difference_limit};
ghost use Rattle.ember_algebra.specs.Size.{Small};
ghost use Rattle.ember_model.specs.Valid.{IsValidCorner, IsValidPlane, IsValidSpot};
ghost use Rattle.ember_model.specs.Planes.{value_at, along, unit, edge_through};
ghost use Rattle.ember_model.specs.Rays.{point_on_ray, IsRayPointSized};
ghost use Rattle.ember_model.specs.Vectors3.{IsVector3Within};
ghost use Rattle.ember_model.specs.ClearTest.{none_positive, all_negative};

use crate::plane::Plane;
use crate::point::{Axis, Corner, Spot};
use crate::triangle_planes::component;
use crate::vector3::{Vector3, vector_between};

/// The value of a plane at a point, `a x + b y + c z - d w`: positive in front of the plane.
#[tactic(none)]
pub fn plane_value(plane: &Plane, point: &Spot) -> i128
    requires plane { IsValidPlane plane.now }
    requires spot { IsValidSpot point.now }
    ensures value { result ≡ value_at plane.now point.now }
    ensures small { Small (2 ^ 80) result }
{
    plane.a as i128 * point.x as i128
        + plane.b as i128 * point.y as i128
        + plane.c as i128 * point.z as i128
        - plane.d as i128 * point.w as i128
}

// A point on the ray from a point `p` along an axis: `p` with all four numbers times `factor`,
// which is the same point, then moved by the distance offset / (factor w).
#[derive(Clone, Copy)]
pub struct RayPoint {
    pub axis: Axis,
    pub factor: i64,
    pub offset: i128,
}

/// The value of a plane at a point on the ray from `p`, at most 2^107 in size.
#[tactic(none)]
pub fn value_at_ray_point(edge: &Plane, p: &Spot, ray_point: &RayPoint) -> i128
    requires plane { IsValidPlane edge.now }
    requires spot { IsValidSpot p.now }
    requires sized { IsRayPointSized ray_point.now }
    ensures value { result ≡ value_at edge.now (point_on_ray p.now ray_point.now) }
    ensures small { Small (2 ^ 107) result }
{
    ray_point.factor as i128 * plane_value(edge, p)
        + ray_point.offset * component(edge, ray_point.axis) as i128
}

/// Whether the values of all planes are negative at a point on the ray from `p`.
pub fn all_negative(edges: &[Plane], p: &Spot, ray_point: &RayPoint) -> bool
    requires planes { All IsValidPlane edges.now }
    requires spot { IsValidSpot p.now }
    requires sized { IsRayPointSized ray_point.now }
    ensures { result ≡ all_negative edges.now (point_on_ray p.now ray_point.now) }
{
    for edge in edges {
        if value_at_ray_point(edge, p, ray_point) >= 0 {
            return false;
        }
    }
    true
}

/// Whether no plane has a positive value at a point on the ray from `p`.
pub fn none_positive(edges: &[Plane], p: &Spot, ray_point: &RayPoint) -> bool
    requires planes { All IsValidPlane edges.now }
    requires spot { IsValidSpot p.now }
    requires sized { IsRayPointSized ray_point.now }
    ensures { result ≡ none_positive edges.now (point_on_ray p.now ray_point.now) }
{
    for edge in edges {
        if value_at_ray_point(edge, p, ray_point) > 0 {
            return false;
        }
    }
    true
}

// The difference from a corner to a point, times the point's weight.
#[tactic(none)]
fn vector_from_corner(u: &Corner, p: &Spot) -> Vector3
    requires corner { IsValidCorner u.now }
    requires spot { IsValidSpot p.now }
    ensures x { result.x ≡ p.now.x -ℤ p.now.w *ℤ u.now.x }
    ensures y { result.y ≡ p.now.y -ℤ p.now.w *ℤ u.now.y }
    ensures z { result.z ≡ p.now.z -ℤ p.now.w *ℤ u.now.z }
    ensures small { IsVector3Within (2 ^ 52) result }
{
    Vector3 {
        x: p.x - p.w * u.x as i64,
        y: p.y - p.w * u.y as i64,
        z: p.z - p.w * u.z as i64,
    }
}

// The difference `a x - b y`.
#[tactic(none)]
fn product_difference(a: i64, x: i64, b: i64, y: i64) -> i128
    requires a { Small narrow_difference_limit a }
    requires x { Small (2 ^ 52) x }
    requires b { Small narrow_difference_limit b }
    requires y { Small (2 ^ 52) y }
    ensures value { result ≡ a *ℤ x -ℤ b *ℤ y }
    ensures small { Small (2 ^ 66) result }
{
    a as i128 * x as i128 - b as i128 * y as i128
}

/// The value, at `p`, of the plane through the edge from `u` to `v` and parallel to the axis `k`.
/// It is at most 2^66 in size.
pub fn edge_value(u: &Corner, v: &Corner, k: Axis, p: &Spot) -> i128
    requires from { IsValidCorner u.now }
    requires to { IsValidCorner v.now }
    requires spot { IsValidSpot p.now }
    ensures value { result ≡ value_at (edge_through u.now v.now (unit k)) p.now }
    ensures small { Small (2 ^ 66) result }
{
    let step = vector_between(u, v);
    let at = vector_from_corner(u, p);
    match k {
        Axis::X => product_difference(step.z, at.y, step.y, at.z),
        Axis::Y => product_difference(step.x, at.z, step.z, at.x),
        Axis::Z => product_difference(step.y, at.x, step.x, at.y),
    }
}
