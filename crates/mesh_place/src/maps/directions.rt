// Sines and cosines as decimals of twenty places.
ghost use Rattle.std.specs.Prelude.{◌≡◌, ◌<◌, ◌≤◌, ◌^◌, IfOk};
ghost use Rattle.mesh_number.specs.Number.Fractions.{Fraction};
ghost use Rattle.mesh_place.specs.Naturals.{natural_of};
ghost use Rattle.mesh_place.specs.Integers.{integer_of};
ghost use Rattle.mesh_place.specs.Directions.{IsNearestUnits, IsFlatDirection, IsSteepOrFlat, IsDirection, direction_of, quarter_further};
ghost use Rattle.mesh_place.specs.Ratios.{IsRatio};

use crate::exact::integers::Integer;
use crate::exact::quotients::nearest;
use crate::exact::sums::product;
use crate::maps::series::{Ratio, cosine, sine};
use std::alloc::{AllocError, Global};

// The places of sines and cosines.
pub(crate) const PLACES: usize = 20;

// π in units of 10^-38.
const PI: u128 = 314_159_265_358_979_323_846_264_338_327_950_288_420;

// Twice the unit of π.
const UNITS: u128 = 200_000_000_000_000_000_000_000_000_000_000_000_000;

// A cosine and a sine in units of 10^-20.
#[derive(Drop)]
pub(crate) struct Direction {
    pub cosine: Integer,
    pub sine: Integer,
}

// A whole number nearest to a fraction in units of 10^-20.
fn nearest_units(alloc: Global, ratio: Ratio) -> Result<Integer, AllocError>
    requires { 0 < natural_of ratio.denominator.digits.items }
    ensures { IfOk result (λ n. (v : Fraction) → IsRatio ratio v → IsNearestUnits v (integer_of n)) }
{
    let Ratio {
        numerator,
        denominator,
    } = ratio;
    let Integer { minus, digits } = numerator;
    let quotient = nearest(alloc, digits, &denominator.digits, PLACES)?;
    Ok(Integer {
        minus,
        digits: quotient,
    })
}

// The direction of an angle that is part / whole of a right angle.
fn flat_direction(alloc: Global, part: u64, whole: u64) -> Result<Direction, AllocError>
    requires { 0 < whole }
    ensures { IfOk result (λ d. IsFlatDirection part whole (direction_of d)) }
{
    let pi = Integer::whole(alloc, PI)?;
    let units = Integer::whole(alloc, UNITS)?;
    let parts = Integer::whole(alloc, u128::from(part))?;
    let wholes = Integer::whole(alloc, u128::from(whole))?;
    let over = product(alloc, &pi, &parts)?;
    let under = product(alloc, &units, &wholes)?;
    let along = cosine(alloc, &over, &under)?;
    let across = sine(alloc, &over, &under)?;
    let cosine = nearest_units(alloc, along)?;
    let sine = nearest_units(alloc, across)?;
    Ok(Direction { cosine, sine })
}

// The same, by the other angle of the right angle if that is less.
fn steep_or_flat(alloc: Global, part: u64, whole: u64) -> Result<Direction, AllocError>
    requires part { part < whole }
    requires small { whole ≤ 2 ^ 60 }
    ensures { IfOk result (λ d. IsSteepOrFlat part whole (direction_of d)) }
{
    if 2 * part <= whole {
        return flat_direction(alloc, part, whole);
    }
    let Direction { cosine, sine } = flat_direction(alloc, whole - part, whole)?;
    Ok(Direction {
        cosine: sine,
        sine: cosine,
    })
}

// A quarter of a turn further.
fn quarter_further(direction: Direction) -> Direction
    ensures { direction_of result ≡ quarter_further (direction_of direction) }
{
    let Direction { cosine, sine } = direction;
    Direction {
        cosine: sine.opposite(),
        sine: cosine,
    }
}

// The direction of an angle that is part / whole of a full turn.
pub(crate) fn direction_at(alloc: Global, part: u64, whole: u64) -> Result<Direction, AllocError>
    requires part { part < whole }
    requires small { whole ≤ 2 ^ 60 }
    ensures { IfOk result (λ d. IsDirection part whole (direction_of d)) }
{
    let mut direction = steep_or_flat(alloc, 4 * part % whole, whole)?;
    for _quarter in 0..4 * part / whole {
        direction = quarter_further(direction);
    }
    Ok(direction)
}
