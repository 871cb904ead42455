// On which side of a plane a point of the broad grid lies.
ghost use Rattle.std.specs.Prelude.{◌≡◌, ◌*◌, ◌+◌, ℤ, pos, ◌+ℤ◌, ◌-ℤ◌, ◌*ℤ◌, ◌≤ℤ◌};
ghost use Rattle.ember_algebra.specs.Size.{Small};
ghost use Rattle.ember_algebra.specs.Sign.{sgn};
ghost use Rattle.ember_model.specs.Owners.{spot_of_corner};
ghost use Rattle.ember_model.specs.Planes.{value_at};
ghost use Rattle.ember_model.specs.Within.{IsCornerWithin};
ghost use Rattle.ember_wide.specs.Whole.{value_of};
ghost use Rattle.ember_width.specs.Broad.{IsBroadPlane, most_normal, most_constant, most_floor, most_value};
ghost use Rattle.ember_width.specs.BroadPoints.{spot_of, short_spot, floor_spot, far_spot};

use crate::broad_point::BroadPoint;
use crate::far_point::FarPoint;
use crate::floor_point::FloorPoint;
use crate::short_point::ShortPoint;
use ember_algebra::{Sign, sign_of};
use ember_model::{Corner, Plane};
use ember_wide::Wide;

// The side of a point in short numbers: products of 64 by 64 bits.
fn short_side(p: &Plane, m: &ShortPoint) -> Sign
    requires { IsBroadPlane p.now }
    ensures { result ≡ sgn (value_at p.now (short_spot m.now)) }
{
    let front = p.a as i128 * m.x as i128 + p.b as i128 * m.y as i128 + p.c as i128 * m.z as i128;
    sign_of(front - p.d as i128 * m.w as i128)
}

/// The value of the plane at a corner of the root or in it.
pub fn value_at_corner(p: &Plane, c: &Corner) -> i64
    requires plane { IsBroadPlane p.now }
    requires corner { IsCornerWithin most_floor c.now }
    ensures value { result ≡ value_at p.now (spot_of_corner c.now) }
    ensures sum { result ≡ p.now.a *ℤ c.now.x +ℤ p.now.b *ℤ c.now.y +ℤ p.now.c *ℤ c.now.z -ℤ p.now.d }
    ensures small { Small most_value result }
{
    p.a * c.x as i64 + p.b * c.y as i64 + p.c * c.z as i64 - p.d
}

// The least value of `a t` for `t` from 0 to 1.
fn least(a: i64) -> i64
    requires { Small most_normal a }
    ensures bound { (r w : ℤ) → pos 0 ≤ℤ r → r ≤ℤ w → (result *ℤ w) ≤ℤ (a *ℤ r) }
    ensures small { Small most_normal result }
{
    if a < 0 { a } else { 0 }
}

// The greatest value of `a t` for `t` from 0 to 1.
fn greatest(a: i64) -> i64
    requires { Small most_normal a }
    ensures bound { (r w : ℤ) → pos 0 ≤ℤ r → r ≤ℤ w → (a *ℤ r) ≤ℤ (result *ℤ w) }
    ensures small { Small most_normal result }
{
    if a > 0 { a } else { 0 }
}

// The side of a point in a unit cube, by the value `v` of the plane at the cube's least corner: in
// 256 bits.
fn exact_side(p: &Plane, v: i64, m: &FloorPoint) -> Sign
    requires plane { IsBroadPlane p.now }
    requires value { Small most_value v }
    ensures { result
        ≡ sgn (v *ℤ m.now.w +ℤ p.now.a *ℤ m.now.x +ℤ p.now.b *ℤ m.now.y +ℤ p.now.c *ℤ m.now.z) }
{
    let base = Wide::product(v as i128, m.w);
    let x = Wide::product(p.a as i128, m.x);
    let y = Wide::product(p.b as i128, m.y);
    let z = Wide::product(p.c as i128, m.z);
    base.plus(&x).plus(&y).plus(&z).sign()
}

// The side of a point in a unit cube. Most planes don't meet the cube, so its corners decide.
fn floor_side(p: &Plane, m: &FloorPoint) -> Sign
    requires { IsBroadPlane p.now }
    ensures { result ≡ sgn (value_at p.now (floor_spot m.now)) }
{
    let v = value_at_corner(p, &m.floor);
    let low = v + least(p.a) + least(p.b) + least(p.c);
    if low > 0 {
        return Sign::Pos;
    }
    let high = v + greatest(p.a) + greatest(p.b) + greatest(p.c);
    if high < 0 {
        return Sign::Neg;
    }
    exact_side(p, v, m)
}

// The side of a point outside of the root: in 256 bits.
fn far_side(p: &Plane, m: &FarPoint) -> Sign
    requires { IsBroadPlane p.now }
    ensures { result ≡ sgn (value_at p.now (far_spot m.now)) }
{
    let x = m.x.times(p.a as i128);
    let y = m.y.times(p.b as i128);
    let z = m.z.times(p.c as i128);
    let d = Wide::product(-(p.d as i128), m.w);
    x.plus(&y).plus(&z).plus(&d).sign()
}

/// The side of the plane on which the point lies: `Pos` in front of it, `Zero` on it.
pub fn broad_side(p: &Plane, m: &BroadPoint) -> Sign
    requires { IsBroadPlane p.now }
    ensures { result ≡ sgn (value_at p.now (spot_of m.now)) }
{
    match m {
        BroadPoint::Short(short) => short_side(p, short),
        BroadPoint::Floored(point) => floor_side(p, point),
        BroadPoint::Far(far) => far_side(p, far),
    }
}
