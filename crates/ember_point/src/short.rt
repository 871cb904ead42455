// Points whose numbers fit into 64 bits: finding on which side of a plane they are takes a third of
// the steps. For each region ember_trace asks once whether its first three corners are short, and
// then makes these calls in place of `side`.
ghost use Rattle.std.specs.Prelude.{◌≡◌, true, ◌*ℤ◌};
ghost use Rattle.ember_model.specs.Limits.{short_limit, valid_constant_limit};
ghost use Rattle.ember_algebra.specs.Size.{Small};
ghost use Rattle.ember_algebra.specs.Sign.{sgn};
ghost use Rattle.ember_model.specs.Valid.{IsValidPlane};
ghost use Rattle.ember_model.specs.Planes.{value_at};
ghost use Rattle.ember_point.specs.Points.{spot_of, has_short_numbers};

use crate::meet_point::Meet;
use ember_algebra::{Sign, sign_of};
use ember_model::Plane;

/// Whether the sizes of the point's four numbers add up to less than 2^62.
pub fn has_short_numbers(m: &Meet) -> bool
    ensures { result ≡ has_short_numbers (spot_of m.now) }
{
    let coordinates = m.x.unsigned_abs() + m.y.unsigned_abs() + m.z.unsigned_abs();
    coordinates + m.w.unsigned_abs() < 4611686018427387904
}

/// The product of a plane's entry or constant and a number of a short point, by one multiplication
/// of 64 bits by 64. It is at most (2^39 - 1) (2^62 - 1) in size.
pub fn short_product(a: i64, x: i128) -> i128
    requires a { Small valid_constant_limit a }
    requires x { Small short_limit x }
    ensures value { result ≡ a *ℤ x }
    ensures small { Small 2535301200451847116425223208961 result }
{
    a as i128 * (x as i64) as i128
}

/// The side of the plane on which a short point lies, as by `side`.
pub fn short_side(p: &Plane, m: &Meet) -> Sign
    requires plane { IsValidPlane p.now }
    requires short { has_short_numbers (spot_of m.now) ≡ true }
    ensures { result ≡ sgn (value_at p.now (spot_of m.now)) }
{
    let front = short_product(p.a, m.x) + short_product(p.b, m.y) + short_product(p.c, m.z);
    sign_of(front - short_product(p.d, m.w))
}
