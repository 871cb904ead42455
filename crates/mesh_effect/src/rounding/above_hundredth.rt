// Which moves are worth a warning.
ghost use Rattle.std.specs.Prelude.{◌≡◌, ◌*◌, ◌^◌, nat_lt};
ghost use Rattle.mesh_grid.specs.Snap.Steps.{IsStep};

use crate::rounding::length::Move;
use mesh_grid::GridStep;
use mesh_number::Magnitude;
use std::cmp::Ordering;

/// Whether the move is more than a hundredth of the step.
pub fn is_above_hundredth(moved: &Move, step: &GridStep) -> bool
    requires { IsStep step.now }
    ensures { result ≡ nat_lt (step.now.numerator * 10 ^ moved.now.places)
        (100 * moved.now.size * step.now.denominator) }
{
    let hundredth = Magnitude::product(u128::from(step.numerator), 10u128.pow(moved.places));
    let size = Magnitude::product(100 * moved.size, u128::from(step.denominator));
    hundredth.compare(&size) == Ordering::Less
}
