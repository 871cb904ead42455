// Planes and points: sides, and planes with one coordinate fixed.
ghost use Rattle.std.specs.Prelude.{◌≡◌};
ghost use Rattle.ember_model.specs.Limits.{wall_limit};
ghost use Rattle.ember_algebra.specs.Size.{Small};
ghost use Rattle.ember_algebra.specs.Sign.{sgn};
ghost use Rattle.ember_model.specs.Valid.{IsValidPlane};
ghost use Rattle.ember_model.specs.Planes.{value_at};
ghost use Rattle.ember_point.specs.Points.{spot_of, slid};

use crate::meet_point::Meet;
use ember_algebra::{Sign, sign_of};
use ember_model::{Axis, Plane};

/// The side of the plane on which the point lies: `Pos` in front of it, `Zero` on it.
pub fn side(p: &Plane, m: &Meet) -> Sign
    requires { IsValidPlane p.now }
    ensures { result ≡ sgn (value_at p.now (spot_of m.now)) }
{
    let front = p.a as i128 * m.x + p.b as i128 * m.y + p.c as i128 * m.z;
    sign_of(front - p.d as i128 * m.w)
}

/// The plane with coordinate `k` fixed to `at`: a plane parallel to the axis `k` that has the
/// same points with that coordinate.
pub fn slide(p: &Plane, k: Axis, at: i32) -> Plane
    requires plane { IsValidPlane p.now }
    requires place { Small wall_limit at }
    requires stays_valid { IsValidPlane (slid p.now k at) }
    ensures { result ≡ slid p.now k at }
{
    let at = at as i64;
    match k {
        Axis::X => Plane {
            a: 0,
            b: p.b,
            c: p.c,
            d: p.d - p.a * at,
        },
        Axis::Y => Plane {
            a: p.a,
            b: 0,
            c: p.c,
            d: p.d - p.b * at,
        },
        Axis::Z => Plane {
            a: p.a,
            b: p.b,
            c: 0,
            d: p.d - p.c * at,
        },
    }
}
