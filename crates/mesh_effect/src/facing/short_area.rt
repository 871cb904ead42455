// The sign of a signed area whose coordinates are short.
ghost use Rattle.std.specs.Prelude.{◌≡◌, ◌^◌, ◌+ℤ◌, ◌*ℤ◌};
ghost use Rattle.ember_algebra.specs.Size.{Small};
ghost use Rattle.ember_algebra.specs.Sign.{sgn};
ghost use Rattle.ember_algebra.specs.Det.{det2};
ghost use Rattle.ember_algebra.specs.Vector.{minus_v};
ghost use Rattle.ember_model.specs.Valid.{IsValidPlane};
ghost use Rattle.mesh_effect.specs.Facing.Areas.{signed_area};
ghost use Rattle.mesh_effect.specs.Facing.Short.{short_point, short_vector};

use crate::facing::short_point::{ShortPoint, ShortVector};
use ember_algebra::{Sign, sign_of};
use ember_model::Plane;

fn difference(from: &ShortPoint, to: &ShortPoint) -> ShortVector
    ensures { short_vector result ≡ minus_v (short_point to.now) (short_point from.now) }
{
    ShortVector {
        x: to.x - from.x,
        y: to.y - from.y,
        z: to.z - from.z,
    }
}

// The determinant of the rows (a, b) and (c, d).
fn minor(a: i64, b: i64, c: i64, d: i64) -> i128
    requires a { Small (2 ^ 49) a }
    requires b { Small (2 ^ 49) b }
    requires c { Small (2 ^ 49) c }
    requires d { Small (2 ^ 49) d }
    ensures value { result ≡ det2 a b c d }
    ensures small { Small (2 ^ 99) result }
{
    a as i128 * d as i128 - b as i128 * c as i128
}

// The plane's normal times the vector (x, y, z).
fn along_normal(plane: &Plane, x: i128, y: i128, z: i128) -> i128
    requires plane { IsValidPlane plane.now }
    requires x { Small (2 ^ 99) x }
    requires y { Small (2 ^ 99) y }
    requires z { Small (2 ^ 99) z }
    ensures { result ≡ plane.now.a *ℤ x +ℤ plane.now.b *ℤ y +ℤ plane.now.c *ℤ z }
{
    plane.a as i128 * x + plane.b as i128 * y + plane.c as i128 * z
}

/// The sign of the signed area of a triangle.
pub(crate) fn short_area_sign(plane: &Plane, a: &ShortPoint, b: &ShortPoint, c: &ShortPoint) -> Sign
    requires { IsValidPlane plane.now }
    ensures { result ≡ sgn (signed_area plane.now (short_point a.now) (short_point b.now) (short_point c.now)) }
{
    let u = difference(a, b);
    let v = difference(a, c);
    let x = minor(u.y, u.z, v.y, v.z);
    let y = minor(u.z, u.x, v.z, v.x);
    let z = minor(u.x, u.y, v.x, v.y);
    sign_of(along_normal(plane, x, y, z))
}
