// Floors of points' coordinates, moved into the root: with them boxes are compared.
ghost use Rattle.std.specs.Prelude.{◌≡◌, pos, ◌<ℤ◌};
ghost use Rattle.std.specs.Int.{int_div_euclid};
ghost use Rattle.ember_model.specs.Limits.{wall_limit};
ghost use Rattle.ember_algebra.specs.Size.{Small};
ghost use Rattle.ember_point.specs.Points.{spot_of};
ghost use Rattle.ember_wide.specs.Whole.{value_of};
ghost use Rattle.ember_width.specs.Broad.{most_floor, most_weight, most_numerator};
ghost use Rattle.ember_width.specs.BroadPoints.{spot_of as broad_spot_of, short_spot, floor_spot, far_spot};
ghost use Rattle.ember_width.specs.RootFloors.{floor_along, moved_within};

use crate::broad_point::BroadPoint;
use crate::far_point::FarPoint;
use crate::floor_point::FloorPoint;
use crate::floors::place_of;
use crate::short_point::ShortPoint;
use ember_algebra::Sign;
use ember_model::Axis;
use ember_point::Meet;
use ember_wide::Wide;

// Moves a number into the interval from `-half` to `half`.
fn moved_within(half: i32, z: i128) -> i32
    requires { Small most_floor half }
    ensures { result ≡ moved_within half z }
{
    let low = -half;
    if z < low as i128 {
        low
    } else if (half as i128) < z {
        half
    } else {
        z as i32
    }
}

// The floor of n / w. It divides in 64 bits if both numbers fit.
fn floor(n: i128, w: i128) -> i128
    requires { pos 0 <ℤ w }
    ensures { result ≡ int_div_euclid n w }
{
    if n.unsigned_abs() < 4611686018427387904 && w < 4611686018427387904 {
        (n as i64).div_euclid(w as i64) as i128
    } else {
        n.div_euclid(w)
    }
}

// The floor of a coordinate of a narrow grid's point.
fn narrow_floor(m: &Meet, axis: Axis) -> i128
    ensures { result ≡ floor_along axis (spot_of m.now) }
{
    match axis {
        Axis::X => floor(m.x, m.w),
        Axis::Y => floor(m.y, m.w),
        Axis::Z => floor(m.z, m.w),
    }
}

/// The same, moved into the root.
pub fn narrow_floor_in_root(m: &Meet, axis: Axis) -> i32
    ensures { result ≡ moved_within (pos wall_limit) (floor_along axis (spot_of m.now)) }
{
    moved_within(2048, narrow_floor(m, axis))
}

// The floor of a coordinate of a short point.
fn short_floor(m: &ShortPoint, axis: Axis) -> i64
    ensures { result ≡ floor_along axis (short_spot m.now) }
{
    match axis {
        Axis::X => m.x.div_euclid(m.w),
        Axis::Y => m.y.div_euclid(m.w),
        Axis::Z => m.z.div_euclid(m.w),
    }
}

// The floor of a coordinate of a point in the root.
fn kept_floor(m: &FloorPoint, axis: Axis) -> i32
    ensures value { result ≡ floor_along axis (floor_spot m.now) }
    ensures small { Small most_floor result }
{
    match axis {
        Axis::X => m.floor.x,
        Axis::Y => m.floor.y,
        Axis::Z => m.floor.z,
    }
}

// The floor of x / w, moved into the root.
fn far_floor(x: &Wide, w: i128) -> i32
    requires x { Small most_numerator (value_of x.now) }
    requires w { Small most_weight w }
    requires weight { pos 0 <ℤ w }
    ensures { result ≡ moved_within (pos most_floor) (int_div_euclid (value_of x.now) w) }
{
    match place_of(x, w) {
        Some(place) => place.floor,
        None => match x.sign() {
            Sign::Neg => -524288,
            _ => 524288,
        },
    }
}

// The floor of a coordinate of a far point, moved into the root.
fn far_floor_along(m: &FarPoint, axis: Axis) -> i32
    ensures { result ≡ moved_within (pos most_floor) (floor_along axis (far_spot m.now)) }
{
    match axis {
        Axis::X => far_floor(&m.x, m.w),
        Axis::Y => far_floor(&m.y, m.w),
        Axis::Z => far_floor(&m.z, m.w),
    }
}

/// The floor of a coordinate of a broad grid's point, moved into the root.
pub fn broad_floor_in_root(m: &BroadPoint, axis: Axis) -> i32
    ensures { result ≡ moved_within (pos most_floor) (floor_along axis (broad_spot_of m.now)) }
{
    match m {
        BroadPoint::Short(short) => moved_within(524288, short_floor(short, axis) as i128),
        BroadPoint::Floored(point) => moved_within(524288, kept_floor(point, axis) as i128),
        BroadPoint::Far(far) => far_floor_along(far, axis),
    }
}
