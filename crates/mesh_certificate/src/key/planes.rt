// The key of an oriented plane.
ghost use Rattle.std.specs.Prelude.{◌≡◌, ◌≢◌, pos, ◌≤ℤ◌, unsigned_abs};
ghost use Rattle.ember_algebra.specs.Sign.{sgn};
ghost use Rattle.ember_model.specs.declared.point.Spot.{Spot};
ghost use Rattle.ember_model.specs.Planes.{value_at, times_plane};
ghost use Rattle.ember_model.specs.Valid.{IsValidPlane};
ghost use Rattle.ember_width.specs.Broad.{IsBroadPlane};
ghost use Rattle.mesh_certificate.specs.Key.Divisors.{Divides, IsGreatestDivisor};
ghost use Rattle.mesh_certificate.specs.Key.PlaneKeys.{coefficients, IsPlaneKey};

use crate::key::division::quotient;
use crate::key::divisor::divisor_of_four;
use ember_model::Plane;

// The greatest common divisor of the plane's numbers, 0 if all four are 0.
fn divisor_of_plane(plane: &Plane) -> i64
    requires { IsBroadPlane plane.now }
    ensures divisor { IsGreatestDivisor (coefficients plane.now) (unsigned_abs result) }
    ensures sign { pos 0 ≤ℤ result }
{
    divisor_of_four(plane.a, plane.b, plane.c, plane.d) as i64
}

fn divided(plane: &Plane, divisor: i64) -> Plane
    requires plane { IsBroadPlane plane.now }
    requires nonzero { divisor ≢ pos 0 }
    requires divides { Divides (unsigned_abs divisor) (coefficients plane.now) }
    ensures { times_plane divisor result ≡ plane.now }
{
    Plane {
        a: quotient(plane.a, divisor),
        b: quotient(plane.b, divisor),
        c: quotient(plane.c, divisor),
        d: quotient(plane.d, divisor),
    }
}

/// The same plane with the same front, and with 1 as the greatest common divisor of its four
/// numbers. A plane of four zeros is its own key. The key of a valid plane is valid.
pub fn plane_key(plane: &Plane) -> Plane
    requires { IsBroadPlane plane.now }
    ensures key { IsPlaneKey plane.now result }
    ensures broad { IsBroadPlane result }
    ensures valid { IsValidPlane plane.now → IsValidPlane result }
    ensures sides { (v : Spot) → sgn (value_at result v) ≡ sgn (value_at plane.now v) }
{
    let divisor = divisor_of_plane(plane);
    if divisor <= 1 {
        return *plane;
    }
    divided(plane, divisor)
}
