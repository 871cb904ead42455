// Corners as decimals.
ghost use Rattle.std.specs.Prelude.{◌≡◌, ◌↔◌, ◌≤◌, ◌++◌, Err, OnOk};
ghost use Rattle.mesh_grid.specs.Snap.Steps.{IsStep};
ghost use Rattle.mesh_written.specs.declared.fault.PlaceFault.TheVariants.{TooFar};
ghost use Rattle.mesh_written.specs.Places.{place_of};
ghost use Rattle.mesh_written.specs.Decimals.{place_text, IsTooLong};

use crate::fault::PlaceFault;
use crate::places::exact_place;
use ember_model::Axis;
use mesh_grid::{GridStep, Offset};
use mesh_number::{Magnitude, put_decimal};
use mesh_point::SpacePoint;
use std::cmp::Ordering;

// 10^21: a longer decimal isn't written. With 17 places it has fewer than 128 bits.
pub(crate) const LIMIT: u128 = 1_000_000_000_000_000_000_000;

/// Appends the decimal of at most `places` places that is nearest to where the corner lies along
/// the axis, in the user's unit; of two equally near, the one whose last place is even. It has no
/// zeros at the end, no bare point, and no sign if it is 0. There are at most 17 places. It is a
/// fault if the corner is 10^21 or more from zero along the axis, and then nothing is appended; the
/// other fault is out-of-memory.
pub fn put_place(
    corner: &SpacePoint,
    axis: Axis,
    step: &GridStep,
    offset: &Offset,
    places: u32,
    out: &mut Vec<u8>,
) -> Result<(), PlaceFault>
    requires step { IsStep step.now }
    requires places { places ≤ 17 }
    ensures far { result ≡ Err TooFar ↔ IsTooLong (place_of step.now offset.now axis corner.now) }
    ensures unchanged { result ≡ Err TooFar → out.new.items ≡ out.old.items }
    ensures text { OnOk result (out.new.items ≡
        out.old.items ++ place_text step.now offset.now axis corner.now places) }
{
    let place = exact_place(corner, axis, step, offset);
    let limit = Magnitude::product(place.denominator, LIMIT);
    if place.numerator.size.compare(&limit) != Ordering::Less {
        return Err(PlaceFault::TooFar);
    }
    match put_decimal(&place.numerator, place.denominator, places, out) {
        Ok(()) => Ok(()),
        Err(_) => Err(PlaceFault::OutOfMemory),
    }
}
