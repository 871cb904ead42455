// How long surfaces are.
ghost use Rattle.std.specs.Prelude.{◌≡◌, ◌≤ℤ◌, ◌<◌, ◌^◌, unsigned_abs};
ghost use Rattle.mesh_grid.specs.Snap.Steps.{IsStep};
ghost use Rattle.mesh_grid.specs.Snap.Spans.{AreNumbers, AreCoordinates};
ghost use Rattle.mesh_grid.specs.Grid.Lengths.{AreBounds, AreWidened, IsLengthAlong, IsLength, greater_of};

use crate::snap::{Coordinates, GridStep, cell};
use mesh_number::Number;

// The least and the greatest of cells.
#[derive(Clone, Copy)]
struct Bounds {
    least: i128,
    greatest: i128,
}

fn widened(bounds: Bounds, cell: i128) -> Bounds
    requires { bounds.least ≤ℤ bounds.greatest }
    ensures { AreWidened bounds cell result }
{
    if cell < bounds.least {
        Bounds {
            least: cell,
            greatest: bounds.greatest,
        }
    } else if bounds.greatest < cell {
        Bounds {
            least: bounds.least,
            greatest: cell,
        }
    } else {
        bounds
    }
}

// The least and the greatest cell of the numbers.
fn bounds_of(numbers: &[Number], step: &GridStep) -> Bounds
    requires step { IsStep step.now }
    requires numbers { AreNumbers numbers.now }
    ensures bounds { AreBounds step.now numbers.now result }
    ensures least { unsigned_abs result.least < 2 ^ 107 }
    ensures greatest { unsigned_abs result.greatest < 2 ^ 107 }
{
    let first = cell(&numbers[0], step);
    let mut bounds = Bounds {
        least: first,
        greatest: first,
    };
    for number in numbers {
        bounds = widened(bounds, cell(number, step));
    }
    bounds
}

// The greatest distance of two of the numbers, in trillionths.
fn length_along(numbers: &[Number]) -> u128
    requires { AreNumbers numbers.now }
    ensures length { IsLengthAlong numbers.now result }
    ensures small { result < 2 ^ 108 }
{
    let trillionth = GridStep {
        numerator: 1,
        denominator: 1_000_000_000_000,
    };
    let bounds = bounds_of(numbers, &trillionth);
    (bounds.greatest - bounds.least).unsigned_abs()
}

fn greater(first: u128, second: u128) -> u128
    ensures { result ≡ greater_of first second }
{
    if first < second { second } else { first }
}

// The greatest of the lengths along the axes, in trillionths.
pub(crate) fn length_of(coordinates: &Coordinates) -> u128
    requires { AreCoordinates coordinates.now }
    ensures length { IsLength coordinates.now result }
    ensures small { result < 2 ^ 108 }
{
    let x = length_along(coordinates.x);
    let y = length_along(coordinates.y);
    let z = length_along(coordinates.z);
    greater(greater(x, y), z)
}
