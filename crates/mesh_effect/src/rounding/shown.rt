// Moves in few digits.
ghost use Rattle.std.specs.Prelude.{◌≡◌, ◌+◌, ◌*◌, ◌≤◌, ◌<◌, ◌^◌};
ghost use Rattle.ember_wide.specs.Whole.{size_of};
ghost use Rattle.mesh_grid.specs.Moves.Shown.{root_above};
ghost use Rattle.mesh_effect.specs.Rounding.Ticks.{IsTick};
ghost use Rattle.mesh_effect.specs.Rounding.Shown.{rounded_of, rounded_up, places_up_to, rounded_from, move_from};

use crate::rounding::length::Move;
use crate::rounding::quotients::quotient_above;
use crate::rounding::tick::Tick;
use mesh_number::Magnitude;

// A move has at most this many places.
const PLACES: u32 = 38;

// The least number with more than nine digits.
const TEN_DIGITS: u128 = 1_000_000_000;

// The square root, rounded up.
fn root_above(square: u128) -> u128
    ensures root { result ≡ root_above square }
    ensures small { result ≤ 2 ^ 64 }
{
    let root = square.isqrt();
    let again = root * root;
    if again < square { root + 1 } else { root }
}

// So many ticks in the user's unit, and how often that can be multiplied by ten while nine digits
// suffice, up to 38 times: this number, and the numerator of the product.
fn raised(root: u128, tick: &Tick) -> (u32, Magnitude)
    requires root { root ≤ 2 ^ 64 }
    requires tick { IsTick tick.now }
    ensures places { result.0 ≡ places_up_to root tick.now 38 }
    ensures value { size_of result.1 ≡ root * tick.now.numerator * 10 ^ result.0 }
    ensures few { result.0 ≤ 38 }
    ensures fits { size_of result.1 < 2 ^ 124 * tick.now.denominator }
    ensures short { 0 < result.0 → rounded_up root tick.now result.0 < 10 ^ 9 }
{
    let mut over = Magnitude::product(root, u128::from(tick.numerator));
    for places in 0..PLACES {
        let next = over.times(10);
        if quotient_above(&next, tick.denominator) >= TEN_DIGITS {
            return (places, over);
        }
        over = next;
    }
    (PLACES, over)
}

// So many ticks in the user's unit, rounded up, with as many places as nine digits allow.
fn rounded_from(root: u128, tick: &Tick) -> Move
    requires root { root ≤ 2 ^ 64 }
    requires tick { IsTick tick.now }
    ensures { rounded_of result ≡ rounded_from root tick.now }
{
    let (places, over) = raised(root, tick);
    let size = quotient_above(&over, tick.denominator);
    Move { size, places }
}

// A move from its square in ticks.
pub(crate) fn move_from(square: u128, tick: &Tick) -> Move
    requires { IsTick tick.now }
    ensures { rounded_of result ≡ move_from tick.now square }
{
    rounded_from(root_above(square), tick)
}
