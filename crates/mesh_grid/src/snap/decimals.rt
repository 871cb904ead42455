// Steps as decimals.
ghost use Rattle.std.specs.Prelude.{◌≡◌, ◌<◌, ◌≤◌, ◌*◌, ◌^◌, ◌-◌, ℤ, true, unsigned_abs, IfSome, IfNone};
ghost use Rattle.mesh_number.specs.Number.Fractions.{is_below_limit};
ghost use Rattle.mesh_number.specs.Number.Values.{value_of};
ghost use Rattle.mesh_grid.specs.Snap.Decimals.{negated, IsMultiple, IsReduced, IsStepOfTrillionths, IsStepOf, IsLeastStepOf};

use crate::snap::steps::GridStep;
use mesh_number::{Binary, Decimal, Number, floor_times, read_decimal};

// Decimals are counted in trillionths.
const TRILLIONTHS: u64 = 1_000_000_000_000;

const PLACES: u32 = 12;

// The least number that is too large for a step's numerator.
const LIMIT: u128 = 1 << 40;

// The number with the other sign.
fn negated<'a>(number: &Number<'a>) -> Number<'a>
    ensures { value_of result ≡ negated (value_of number.now) }
{
    match number {
        Number::Decimal(decimal) => Number::Decimal(Decimal {
            minus: !decimal.minus,
            whole: decimal.whole,
            fraction: decimal.fraction,
            exponent: decimal.exponent,
        }),
        Number::Binary(binary) => Number::Binary(Binary {
            minus: !binary.minus,
            significand: binary.significand,
            power: binary.power,
            scale: binary.scale,
        }),
    }
}

// How many trillionths the number is, if it is a whole number of them and below 10^15 in size.
fn trillionths_of(number: &Number) -> Option<i128>
    ensures some { IfSome result (IsMultiple TRILLIONTHS (value_of number.now)) }
    ensures small { IfSome result (λ trillionths. unsigned_abs trillionths < 2 ^ 106) }
    ensures none { IfNone result ((trillionths : ℤ) → IsMultiple TRILLIONTHS (value_of number.now) trillionths →
        is_below_limit (value_of number.now) ≡ true → ⊥) }
{
    // It is a whole number of them if rounding down and rounding up give the same.
    let floor = floor_times(number, TRILLIONTHS)?;
    let ceiling = -floor_times(&negated(number), TRILLIONTHS)?;
    if floor == ceiling { Some(floor) } else { None }
}

// The same number of trillionths without zeros at its end, and how many places are left.
fn reduced(trillionths: u128) -> (u128, u32)
    requires { 0 < trillionths }
    ensures same { result.0 * 10 ^ (PLACES - result.1) ≡ trillionths }
    ensures few { result.1 ≤ PLACES }
    ensures reduced { IsReduced result.0 result.1 }
{
    let mut number = trillionths;
    let mut places = PLACES;
    while places > 0 && number % 10 == 0 {
        number /= 10;
        places -= 1;
    }
    (number, places)
}

// The step of so many trillionths, if its numerator isn't too large.
fn step_of_trillionths(trillionths: u128) -> Option<GridStep>
    requires { 0 < trillionths }
    ensures some { IfSome result (IsStepOfTrillionths trillionths) }
    ensures least { IfSome result (λ step. (other : GridStep) → IsStepOfTrillionths trillionths other →
        step.numerator ≤ other.numerator) }
    ensures none { IfNone result ((step : GridStep) → IsStepOfTrillionths trillionths step → ⊥) }
{
    let (number, places) = reduced(trillionths);
    if number >= LIMIT {
        return None;
    }
    Some(GridStep {
        numerator: number as u64,
        denominator: 10u64.pow(places),
    })
}

/// The step that a text spells: a decimal above 0 that is a whole number below 2^40 over a power of
/// ten up to 10^12. Of all such fractions it is the one with the least numerator. None for any other
/// text.
pub fn step_of(text: &[u8]) -> Option<GridStep>
    ensures some { IfSome result (IsLeastStepOf text.now) }
    ensures none { IfNone result ((step : GridStep) → IsStepOf text.now step → ⊥) }
{
    let number = read_decimal(text)?;
    let trillionths = trillionths_of(&number)?;
    if trillionths <= 0 {
        return None;
    }
    step_of_trillionths(trillionths as u128)
}
