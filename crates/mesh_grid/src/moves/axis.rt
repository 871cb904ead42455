// How far numbers are from their cells.
ghost use Rattle.std.specs.Prelude.{◌≡◌, ◌≤◌, ◌<◌, ◌*◌, ◌^◌, max, true, pos, ◌+ℤ◌, ◌-ℤ◌, unsigned_abs};
ghost use Rattle.std.specs.Int.{int_rem_euclid};
ghost use Rattle.mesh_number.specs.Number.Fractions.{is_below_limit, floor_of_multiple};
ghost use Rattle.mesh_number.specs.Number.Values.{value_of};
ghost use Rattle.mesh_grid.specs.Snap.Decimals.{negated};
ghost use Rattle.mesh_grid.specs.Snap.Steps.{IsStep};
ghost use Rattle.mesh_grid.specs.Moves.Moves.{ceiling_of_multiple, ticks_of, IsFineness};

use crate::snap::{GridStep, remainder};
use mesh_number::{Binary, Decimal, Number, floor_times};

// The number with the other sign.
fn negated<'a>(number: &Number<'a>) -> Number<'a>
    ensures { value_of result ≡ negated (value_of number.now) }
{
    match number {
        Number::Decimal(decimal) => Number::Decimal(Decimal {
            minus: !decimal.minus,
            whole: decimal.whole,
            fraction: decimal.fraction,
            exponent: decimal.exponent,
        }),
        Number::Binary(binary) => Number::Binary(Binary {
            minus: !binary.minus,
            significand: binary.significand,
            power: binary.power,
            scale: binary.scale,
        }),
    }
}

// The multiple of the number, rounded down.
fn ticks_below(number: &Number, factor: u64) -> i128
    requires factor { factor < 2 ^ 41 }
    requires below { is_below_limit (value_of number.now) ≡ true }
    ensures value { result ≡ floor_of_multiple factor (value_of number.now) }
    ensures small { unsigned_abs result < 2 ^ 106 }
{
    match floor_times(number, factor) {
        Some(floor) => floor,
        None => unreachable!(),
    }
}

// The multiple of the number, rounded up.
fn ticks_above(number: &Number, factor: u64) -> i128
    requires factor { factor < 2 ^ 41 }
    requires below { is_below_limit (value_of number.now) ≡ true }
    ensures value { result ≡ ceiling_of_multiple factor (value_of number.now) }
    ensures small { unsigned_abs result < 2 ^ 106 }
{
    let floor = ticks_below(&negated(number), factor);
    -floor
}

// How many ticks past the lower end of its cell a number is.
fn rest_of(floor: i128, half: u64) -> i128
    requires floor { unsigned_abs floor < 2 ^ 106 }
    requires positive { 0 < half }
    requires small { half ≤ 2 ^ 61 }
    ensures value { result ≡ int_rem_euclid (floor +ℤ pos half) (pos (2 * half)) }
    ensures small { unsigned_abs result < 2 * half }
{
    let part = i128::from(half);
    remainder(floor + part, 2 * part)
}

// The greater of the distances of two numbers from the middle of a cell, of which the first is
// `rest` past its lower end.
fn distance(low: i128, high: i128, rest: i128, half: u64) -> u128
    requires low { unsigned_abs low < 2 ^ 106 }
    requires high { unsigned_abs high < 2 ^ 106 }
    requires rest { unsigned_abs rest < 2 ^ 106 }
    requires half { half ≤ 2 ^ 61 }
    ensures { let middle = low +ℤ (pos half -ℤ rest) in
        result ≡ max (unsigned_abs (high -ℤ middle)) (unsigned_abs (pos half -ℤ rest)) }
{
    let below = i128::from(half) - rest;
    let above = high - (low + below);
    above.unsigned_abs().max(below.unsigned_abs())
}

// How many ticks the number is from its cell, rounded up.
pub(crate) fn ticks_of(number: &Number, step: &GridStep, fineness: u64) -> u128
    requires step { IsStep step.now }
    requires below { is_below_limit (value_of number.now) ≡ true }
    requires fineness { IsFineness step.now fineness }
    ensures value { result ≡ ticks_of step.now fineness (value_of number.now) }
    ensures small { result ≤ 2 ^ 61 }
{
    let factor = 2 * (step.denominator * fineness);
    let half = step.numerator * fineness;
    let low = ticks_below(number, factor);
    let high = ticks_above(number, factor);
    let rest = rest_of(low, half);
    distance(low, high, rest, half)
}
