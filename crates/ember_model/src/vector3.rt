// Differences of corners, normals, and the planes that have them.
ghost use Rattle.std.specs.Prelude.{◌≡◌, ℕ, ◌*◌, ℤ, ◌*ℤ◌};
ghost use Rattle.ember_algebra.specs.Size.{Small};
ghost use Rattle.ember_algebra.specs.Sign.{sign};
ghost use Rattle.ember_algebra.specs.Vector.{cross, scale_v};
ghost use Rattle.ember_model.specs.Limits.{broad_limit};
ghost use Rattle.ember_model.specs.Within.{IsCornerWithin};
ghost use Rattle.ember_model.specs.Planes.{vector_between, plane_through, unit};
ghost use Rattle.ember_model.specs.Vectors3.{as_vector, IsVector3Within};

use crate::plane::Plane;
use crate::point::{Axis, Corner};

/// The difference of two points, or the normal of a plane.
#[derive(Clone, Copy)]
pub struct Vector3 {
    pub x: i64,
    pub y: i64,
    pub z: i64,
}

/// The difference `to - from`. Each entry is at most twice as large as the corners' coordinates may
/// be.
#[tactic(none)]
pub fn vector_between(from: &Corner, to: &Corner) -> Vector3
    requires from { IsCornerWithin broad_limit from.now }
    requires to { IsCornerWithin broad_limit to.now }
    ensures value { as_vector result ≡ vector_between from.now to.now }
    ensures within { (m : ℕ) → IsCornerWithin m from.now → IsCornerWithin m to.now → IsVector3Within (2 * m) result }
{
    Vector3 {
        x: to.x as i64 - from.x as i64,
        y: to.y as i64 - from.y as i64,
        z: to.z as i64 - from.z as i64,
    }
}

/// The cross product of two differences of corners. Each entry is at most twice the square of the
/// differences' greatest entry.
#[tactic(none)]
pub fn cross_product(u: &Vector3, v: &Vector3) -> Vector3
    requires u { IsVector3Within (2 * broad_limit) u.now }
    requires v { IsVector3Within (2 * broad_limit) v.now }
    ensures value { as_vector result ≡ cross (as_vector u.now) (as_vector v.now) }
    ensures small { IsVector3Within (8 * (broad_limit * broad_limit)) result }
{
    Vector3 {
        x: u.y * v.z - u.z * v.y,
        y: u.z * v.x - u.x * v.z,
        z: u.x * v.y - u.y * v.x,
    }
}

/// The plane with the normal `normal` that contains the corner `u`.
#[tactic(none)]
pub fn plane_with(normal: &Vector3, u: &Corner) -> Plane
    requires normal { IsVector3Within (8 * (broad_limit * broad_limit)) normal.now }
    requires u { IsCornerWithin broad_limit u.now }
    ensures { result ≡ plane_through (as_vector normal.now) u.now }
{
    let d = normal.x * u.x as i64 + normal.y * u.y as i64 + normal.z * u.z as i64;
    Plane {
        a: normal.x,
        b: normal.y,
        c: normal.z,
        d,
    }
}

/// The normal of the plane through an edge of direction `step` and parallel to the axis `k`, times
/// the sign `s`.
#[tactic(none)]
pub fn edge_normal(step: &Vector3, k: Axis, s: i64) -> Vector3
    requires step { IsVector3Within (2 * broad_limit) step.now }
    requires s { Small 1 s }
    ensures value { as_vector result ≡ scale_v s (cross (as_vector step.now) (unit k)) }
    ensures small { IsVector3Within (2 * broad_limit) result }
{
    let x = s * step.x;
    let y = s * step.y;
    let z = s * step.z;
    match k {
        Axis::X => Vector3 { x: 0, y: z, z: -y },
        Axis::Y => Vector3 { x: -z, y: 0, z: x },
        Axis::Z => Vector3 { x: y, y: -x, z: 0 },
    }
}

/// The sign of `x` as a number: -1, 0 or 1.
pub fn sign_number(x: i64) -> i64
    ensures value { result ≡ sign x }
    ensures small { Small 1 result }
{
    if x < 0 {
        -1
    } else if x == 0 {
        0
    } else {
        1
    }
}
