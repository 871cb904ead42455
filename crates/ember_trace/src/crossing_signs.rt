// The signed crossings of segments with planes.
ghost use Rattle.std.specs.Prelude.{◌≡◌};
ghost use Rattle.ember_algebra.specs.Size.{Small};
ghost use Rattle.ember_algebra.specs.Sign.{flip, sgn, sign, is_nil};
ghost use Rattle.ember_model.specs.Planes.{along};
ghost use Rattle.ember_trace.specs.Crossings.{signed_crossing, side_before, side_after};

use ember_algebra::{Sign, sign_of};
use ember_model::{Axis, Plane};
use ember_ref::or_sign;

/// How a segment from one side of a plane to another crosses it: 1 from behind to the front, -1
/// back, otherwise 0. The same as `signed_crossing` of ember_ref, which can't cite the definition
/// of that name: it stands in this crate.
pub fn signed_crossing(from: Sign, to: Sign) -> i32
    ensures value { result ≡ signed_crossing from to }
    ensures small { Small 1 result }
{
    match from {
        Sign::Zero => 0,
        Sign::Neg => match to {
            Sign::Pos => 1,
            _ => 0,
        },
        Sign::Pos => match to {
            Sign::Neg => -1,
            _ => 0,
        },
    }
}

// The opposite sign.
fn flipped(sign: Sign) -> Sign
    ensures { result ≡ flip sign }
{
    match sign {
        Sign::Neg => Sign::Pos,
        Sign::Zero => Sign::Zero,
        Sign::Pos => Sign::Neg,
    }
}

// The sign of the entry of a plane's normal along an axis.
fn normal_sign(p: &Plane, k: Axis) -> Sign
    ensures { result ≡ sgn (along p.now k) }
{
    match k {
        Axis::X => sign_of(p.a as i128),
        Axis::Y => sign_of(p.b as i128),
        Axis::Z => sign_of(p.c as i128),
    }
}

/// Whether the entry of the plane's normal along an axis is 0.
pub fn is_parallel(p: &Plane, k: Axis) -> bool
    ensures { result ≡ is_nil (sgn (along p.now k)) }
{
    matches!(normal_sign(p, k), Sign::Zero)
}

/// The sign of the normal's entry along an axis, as a number.
pub fn slope_number(p: &Plane, k: Axis) -> i64
    ensures value { result ≡ sign (along p.now k) }
    ensures small { Small 1 result }
{
    match normal_sign(p, k) {
        Sign::Neg => -1,
        Sign::Zero => 0,
        Sign::Pos => 1,
    }
}

/// `at` is the side of the plane on which a point lies. The result is the side on which the point
/// directly before it along the axis lies.
pub fn side_before(p: &Plane, k: Axis, at: Sign) -> Sign
    ensures { result ≡ side_before p.now k at }
{
    or_sign(at, flipped(normal_sign(p, k)))
}

/// `at` is the side of the plane on which a point lies. The result is the side on which the point
/// directly after it along the axis lies.
pub fn side_after(p: &Plane, k: Axis, at: Sign) -> Sign
    ensures { result ≡ side_after p.now k at }
{
    or_sign(at, normal_sign(p, k))
}

/// How a ray along an axis crosses the plane, if it begins on this side of it.
pub fn signed_crossing_along(from: Sign, p: &Plane, k: Axis) -> i32
    ensures value { result ≡ signed_crossing from (sgn (along p.now k)) }
    ensures small { Small 1 result }
{
    signed_crossing(from, normal_sign(p, k))
}
