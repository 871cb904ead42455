// How many decimal places are written.
ghost use Rattle.std.specs.Prelude.{◌≡◌, ◌≤◌, IfSome};
ghost use Rattle.mesh_grid.specs.Snap.Steps.{IsStep};
ghost use Rattle.mesh_written.specs.Digits.{step_places, written_places};

use mesh_grid::GridStep;

// A step with more places than this counts as one with so many.
const MOST_STEP_PLACES: u32 = 11;

// With so many places more, the rounding of a corner is much finer than the step.
const FINER: u32 = 6;

// The decimal places of the step, digit by digit of a long division.
fn step_places(step: &GridStep) -> u32
    requires { IsStep step.now }
    ensures value { result ≡ step_places step.now }
    ensures few { result ≤ MOST_STEP_PLACES }
{
    let mut rest = step.numerator % step.denominator;
    for places in 0..MOST_STEP_PLACES {
        if rest == 0 {
            return places;
        }
        rest = rest * 10 % step.denominator;
    }
    MOST_STEP_PLACES
}

/// How many decimal places are written: `digits`, which are at most 17, or six more than the step
/// has, which counts as one of 11 places if it has more.
pub fn written_places(digits: Option<u32>, step: &GridStep) -> u32
    requires step { IsStep step.now }
    requires digits { IfSome digits (λ n. n ≤ 17) }
    ensures value { result ≡ written_places digits step.now }
    ensures few { result ≤ 17 }
{
    match digits {
        Some(places) => places,
        None => step_places(step) + FINER,
    }
}
