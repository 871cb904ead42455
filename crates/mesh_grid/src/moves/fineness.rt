// How finely moves are counted.
ghost use Rattle.std.specs.Prelude.{◌≡◌};
ghost use Rattle.mesh_grid.specs.Snap.Steps.{IsStep};
ghost use Rattle.mesh_grid.specs.Moves.Moves.{fineness_of, IsFineness};

use crate::snap::GridStep;

// Half of the user's unit is at most so many ticks, unless the denominator is greater.
const TRILLION: u64 = 1_000_000_000_000;

// Half a step is at most so many ticks, so that three squares fit in 128 bits.
const MOST: u64 = 1 << 61;

// Moves to a grid with this step are counted in ticks: half a step is numerator times fineness of
// them, and half of the user's unit is denominator times fineness.
pub(crate) fn fineness_of(step: &GridStep) -> u64
    requires { IsStep step.now }
    ensures value { result ≡ fineness_of step.now }
    ensures fineness { IsFineness step.now result }
{
    let by_number = TRILLION / step.denominator;
    let by_step = MOST / step.numerator;
    by_number.min(by_step).max(1)
}
