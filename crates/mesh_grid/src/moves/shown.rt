// Moves in few digits.
ghost use Rattle.std.specs.Prelude.{◌≡◌, ◌≤◌, ◌<◌, ◌^◌, nat_lt};
ghost use Rattle.mesh_grid.specs.Snap.Steps.{IsStep};
ghost use Rattle.mesh_grid.specs.Moves.Moves.{IsFineness};
ghost use Rattle.mesh_grid.specs.Moves.Shown.{root_above, rounded_up, places_up_to, rounded_of, length_of};

use crate::moves::length::Length;
use crate::snap::GridStep;

// A length has at most this many places.
const PLACES: u32 = 12;

// The least number with more than nine digits.
const TEN_DIGITS: u128 = 1_000_000_000;

// The square root, rounded up.
fn root_above(square: u128) -> u128
    ensures root { result ≡ root_above square }
    ensures small { result ≤ 2 ^ 64 }
{
    let root = square.isqrt();
    let again = root * root;
    if again < square { root + 1 } else { root }
}

// The root divided by `under`, with this many places, rounded up to the last place.
fn rounded_up(root: u128, under: u128, places: u32) -> u128
    requires root { root ≤ 2 ^ 64 }
    requires positive { 0 < under }
    requires small { under < 2 ^ 41 }
    requires places { places ≤ 12 }
    ensures value { result ≡ rounded_up root under places }
    ensures small { result < 2 ^ 127 }
{
    let raised = root * u128::from(10u64.pow(places));
    (raised + (under - 1)) / under
}

// Whether at most nine digits are left with this many places.
fn is_short(root: u128, under: u128, places: u32) -> bool
    requires root { root ≤ 2 ^ 64 }
    requires positive { 0 < under }
    requires small { under < 2 ^ 41 }
    requires places { places ≤ 12 }
    ensures { result ≡ nat_lt (rounded_up root under places) (10 ^ 9) }
{
    rounded_up(root, under, places) < TEN_DIGITS
}

// As many places as nine digits allow.
fn places_of(root: u128, under: u128) -> u32
    requires root { root ≤ 2 ^ 64 }
    requires positive { 0 < under }
    requires small { under < 2 ^ 41 }
    ensures value { result ≡ places_up_to root under 12 }
    ensures few { result ≤ 12 }
{
    let mut places = PLACES;
    while places > 0 {
        if is_short(root, under, places) {
            return places;
        }
        places -= 1;
    }
    0
}

// A length from its square in ticks, rounded up to nine digits. It has at most 12 places.
pub(crate) fn length_of(square: u128, step: &GridStep, fineness: u64) -> Length
    requires step { IsStep step.now }
    requires fineness { IsFineness step.now fineness }
    ensures { rounded_of result ≡ length_of step.now fineness square }
{
    let under = u128::from(2 * (step.denominator * fineness));
    let root = root_above(square);
    let places = places_of(root, under);
    let size = rounded_up(root, under, places);
    Length { size, places }
}
