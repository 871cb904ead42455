// On which side of a plane a point lies.
ghost use Rattle.std.specs.Prelude.{◌≡◌, ◌*◌, ◌+ℤ◌, ◌-ℤ◌, ◌*ℤ◌};
ghost use Rattle.ember_algebra.specs.Size.{Small};
ghost use Rattle.ember_algebra.specs.Sign.{sgn};
ghost use Rattle.ember_model.specs.Planes.{value_at};
ghost use Rattle.ember_width.specs.Broad.{IsBroadPlane, most_short};
ghost use Rattle.mesh_point.specs.Sides.{floor_value, rest_value, most_floor_value, most_change, most_long};
ghost use Rattle.mesh_point.specs.SpacePoints.{spot_of};

use crate::space_point::SpacePoint;
use ember_algebra::{Sign, sign_of};
use ember_model::Plane;
use ember_wide::Wide;

// How far the value of a plane of the broad grid can be from that at the least corner of a unit cube:
// three entries of its normal.
const MOST_CHANGE: i128 = 3298534883325;

// Weights of at most this size are short: 2^62 - 1.
const MOST_SHORT: i128 = 4611686018427387903;

// With weights of at most this size all numbers fit into 128 bits: 2^84 - 1.
const MOST_LONG: i128 = 19342813113834066795298815;

// The value of the plane at the least corner of the point's unit cube.
fn floor_value(plane: &Plane, p: &SpacePoint) -> i128
    requires { IsBroadPlane plane.now }
    ensures value { result ≡ floor_value plane.now p.now }
    ensures small { Small most_floor_value result }
{
    let x = plane.a as i128 * p.floor_x as i128;
    let y = plane.b as i128 * p.floor_y as i128;
    let z = plane.c as i128 * p.floor_z as i128;
    x + y + z - plane.d as i128
}

// The side of a point with a short weight, by the value of the plane at the least corner of its unit
// cube: products of 64 by 64 bits.
fn short_side(plane: &Plane, value: i64, p: &SpacePoint) -> Sign
    requires plane { IsBroadPlane plane.now }
    requires value { Small most_change value }
    requires short { Small most_short p.now.w }
    ensures { result ≡ sgn (value *ℤ p.now.w +ℤ rest_value plane.now p.now) }
{
    let base = value as i128 * (p.w as i64) as i128;
    let x = plane.a as i128 * (p.x as i64) as i128;
    let y = plane.b as i128 * (p.y as i64) as i128;
    let z = plane.c as i128 * (p.z as i64) as i128;
    sign_of(base + x + y + z)
}

// The same for a weight below 2^84, in 128 bits.
fn long_side(plane: &Plane, value: i64, p: &SpacePoint) -> Sign
    requires plane { IsBroadPlane plane.now }
    requires value { Small most_change value }
    requires long { Small most_long p.now.w }
    ensures { result ≡ sgn (value *ℤ p.now.w +ℤ rest_value plane.now p.now) }
{
    let base = value as i128 * p.w;
    let x = plane.a as i128 * p.x;
    let y = plane.b as i128 * p.y;
    let z = plane.c as i128 * p.z;
    sign_of(base + x + y + z)
}

// The same for any weight, in 256 bits.
fn wide_side(plane: &Plane, value: i64, p: &SpacePoint) -> Sign
    requires plane { IsBroadPlane plane.now }
    requires value { Small most_change value }
    ensures { result ≡ sgn (value *ℤ p.now.w +ℤ rest_value plane.now p.now) }
{
    let base = Wide::product(value as i128, p.w);
    let x = Wide::product(plane.a as i128, p.x);
    let y = Wide::product(plane.b as i128, p.y);
    let z = Wide::product(plane.c as i128, p.z);
    base.plus(&x).plus(&y).plus(&z).sign()
}

// The side of a point whose unit cube the plane may meet.
fn exact_side(plane: &Plane, value: i64, p: &SpacePoint) -> Sign
    requires plane { IsBroadPlane plane.now }
    requires value { Small most_change value }
    ensures { result ≡ sgn (value *ℤ p.now.w +ℤ rest_value plane.now p.now) }
{
    if p.w <= MOST_SHORT {
        short_side(plane, value, p)
    } else if p.w <= MOST_LONG {
        long_side(plane, value, p)
    } else {
        wide_side(plane, value, p)
    }
}

/// The side of the plane on which the point lies: `Pos` in front of it, `Zero` on it.
pub fn side(plane: &Plane, p: &SpacePoint) -> Sign
    requires { IsBroadPlane plane.now }
    ensures { result ≡ sgn (value_at plane.now (spot_of p.now)) }
{
    let value = floor_value(plane, p);
    if value > MOST_CHANGE {
        Sign::Pos
    } else if value < -MOST_CHANGE {
        Sign::Neg
    } else {
        exact_side(plane, value as i64, p)
    }
}
