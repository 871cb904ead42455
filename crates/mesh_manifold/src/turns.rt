// How normals turn round an edge, exactly.
ghost use Rattle.std.specs.Prelude.{◌≡◌, IfSome};
ghost use Rattle.ember_model.specs.Limits.{valid_normal_limit};
ghost use Rattle.ember_algebra.specs.Size.{Small};
ghost use Rattle.ember_wide.specs.Whole.{value_of};
ghost use Rattle.mesh_manifold.specs.Turns.{IsNormal, opposite, cross, inner, along, turn};

use ember_model::Plane;
use mesh_number::Wide;
use mesh_write::DecimalPoint;
use std::cmp::Ordering;

/// A normal of a plane, or the product of two.
#[derive(Clone, Copy, Debug, PartialEq, Eq)]
pub struct Normal {
    pub x: i128,
    pub y: i128,
    pub z: i128,
}

// A number below 2^25 in size.
fn small(n: i64) -> Option<i128>
    ensures { IfSome result (Small valid_normal_limit) }
{
    if n.unsigned_abs() < 1 << 25 {
        Some(i128::from(n))
    } else {
        None
    }
}

/// The normal of a plane whose entries are below 2^25 in size.
pub fn normal_of(plane: &Plane) -> Option<Normal>
    ensures { IfSome result IsNormal }
{
    let x = small(plane.a)?;
    let y = small(plane.b)?;
    let z = small(plane.c)?;
    Some(Normal { x, y, z })
}

/// The normal of the plane's other side.
pub fn opposite(normal: &Normal) -> Normal
    requires { IsNormal normal.now }
    ensures value { result ≡ opposite normal.now }
    ensures small { IsNormal result }
{
    Normal {
        x: -normal.x,
        y: -normal.y,
        z: -normal.z,
    }
}

fn cross(g: &Normal, h: &Normal) -> Normal
    requires g { IsNormal g.now }
    requires h { IsNormal h.now }
    ensures { result ≡ cross g.now h.now }
{
    Normal {
        x: g.y * h.z - g.z * h.y,
        y: g.z * h.x - g.x * h.z,
        z: g.x * h.y - g.y * h.x,
    }
}

/// The inner product of two normals: it is positive if they are less than a right angle apart.
pub fn inner(g: &Normal, h: &Normal) -> i128
    requires g { IsNormal g.now }
    requires h { IsNormal h.now }
    ensures { result ≡ inner g.now h.now }
{
    g.x * h.x + g.y * h.y + g.z * h.z
}

// How far the point lies in the direction.
fn along(point: &DecimalPoint, direction: &Normal) -> Wide
    ensures { value_of result ≡ along point.now direction.now }
{
    let x = Wide::product(point.x, direction.x);
    let y = Wide::product(point.y, direction.y);
    let z = Wide::product(point.z, direction.z);
    x.plus(&y).plus(&z)
}

/// Which way a normal turns to become another, seen against the edge from u to v: greater is
/// counter-clockwise by less than half a turn, equal is none or half a turn.
pub fn turn(u: &DecimalPoint, v: &DecimalPoint, g: &Normal, h: &Normal) -> Ordering
    requires g { IsNormal g.now }
    requires h { IsNormal h.now }
    ensures { result ≡ turn u.now v.now g.now h.now }
{
    let axis = cross(g, h);
    along(v, &axis).compare(&along(u, &axis))
}
