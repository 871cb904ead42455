// A point of the broad grid by its numbers: short, by its floors, or far.
ghost use Rattle.std.specs.Prelude.{◌≡◌, pos, ◌<ℤ◌, IfSome};
ghost use Rattle.ember_algebra.specs.Size.{Small};
ghost use Rattle.ember_wide.specs.Whole.{value_of};
ghost use Rattle.ember_width.specs.Broad.{most_short, most_weight, most_numerator};
ghost use Rattle.ember_width.specs.BroadPoints.{spot_of, short_spot, floor_spot};

use crate::broad_point::BroadPoint;
use crate::far_point::FarPoint;
use crate::floor_point::FloorPoint;
use crate::floors::place_of;
use crate::short_point::ShortPoint;
use ember_model::Corner;
use ember_wide::Wide;

// 2^62 - 1
const MOST_SHORT: u128 = 4611686018427387903;

const MOST_SHORT_WEIGHT: i128 = 4611686018427387903;

// The number, if it is below 2^62 in size.
fn short_of(n: &Wide) -> Option<i64>
    ensures value { IfSome result (λ k. k ≡ value_of n.now) }
    ensures small { IfSome result (λ k. Small most_short k) }
{
    let high = n.size.high;
    let low = n.size.low;
    if high != 0 {
        return None;
    }
    if low > MOST_SHORT {
        return None;
    }
    let size = low as i64;
    let negative = n.negative;
    if negative { Some(-size) } else { Some(size) }
}

// The point in short numbers, if it has them.
fn short_point(x: &Wide, y: &Wide, z: &Wide, w: i128) -> Option<ShortPoint>
    requires w { Small most_weight w }
    requires weight { pos 0 <ℤ w }
    ensures { IfSome result
        (λ m. short_spot m ≡ record { x = value_of x.now; y = value_of y.now; z = value_of z.now; w = w }) }
{
    if w > MOST_SHORT_WEIGHT {
        return None;
    }
    let x = short_of(x)?;
    let y = short_of(y)?;
    let z = short_of(z)?;
    let w = w as i64;
    Some(ShortPoint { x, y, z, w })
}

// The point by the floors of its coordinates, if it lies in the root.
fn floor_point(x: &Wide, y: &Wide, z: &Wide, w: i128) -> Option<FloorPoint>
    requires x { Small most_numerator (value_of x.now) }
    requires y { Small most_numerator (value_of y.now) }
    requires z { Small most_numerator (value_of z.now) }
    requires w { Small most_weight w }
    requires weight { pos 0 <ℤ w }
    ensures { IfSome result
        (λ m. floor_spot m ≡ record { x = value_of x.now; y = value_of y.now; z = value_of z.now; w = w }) }
{
    let x = place_of(x, w)?;
    let y = place_of(y, w)?;
    let z = place_of(z, w)?;
    let floor = Corner {
        x: x.floor,
        y: y.floor,
        z: z.floor,
    };
    Some(FloorPoint {
        floor,
        x: x.rest,
        y: y.rest,
        z: z.rest,
        w,
    })
}

/// The point `(x / w, y / w, z / w)`.
pub fn point_of(x: &Wide, y: &Wide, z: &Wide, w: i128) -> BroadPoint
    requires x { Small most_numerator (value_of x.now) }
    requires y { Small most_numerator (value_of y.now) }
    requires z { Small most_numerator (value_of z.now) }
    requires w { Small most_weight w }
    requires weight { pos 0 <ℤ w }
    ensures { spot_of result ≡ record { x = value_of x.now; y = value_of y.now; z = value_of z.now; w = w } }
{
    if let Some(short) = short_point(x, y, z, w) {
        return BroadPoint::Short(short);
    }
    if let Some(point) = floor_point(x, y, z, w) {
        return BroadPoint::Floored(point);
    }
    BroadPoint::Far(FarPoint {
        x: *x,
        y: *y,
        z: *z,
        w,
    })
}
