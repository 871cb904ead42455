// What the cells of many numbers span.
ghost use Rattle.std.specs.Prelude.{◌≡◌, ◌↔◌, true, ◌≤ℤ◌, All, IsTrue, IfSome, IfNone};
ghost use Rattle.mesh_number.specs.Number.Fractions.{is_below_limit};
ghost use Rattle.mesh_number.specs.Number.Values.{value_of};
ghost use Rattle.mesh_grid.specs.Snap.Sizes.{limit_of};
ghost use Rattle.mesh_grid.specs.Snap.Steps.{IsStep};
ghost use Rattle.mesh_grid.specs.Snap.Spans.{FitsWithin, FitsAllWithin, IsSpanWithin, AreSpansWithin, AreNumbers, AreCoordinates, IsWidened};

use crate::snap::cells::cell;
use crate::snap::sizes::GridSize;
use crate::snap::steps::GridStep;
use mesh_number::{Number, is_below_limit};

/// The coordinates of all corners: along x, along y and along z.
#[derive(Clone, Copy)]
pub struct Coordinates<'a> {
    pub x: &'a [Number<'a>],
    pub y: &'a [Number<'a>],
    pub z: &'a [Number<'a>],
}

#[derive(Clone, Copy, Debug, PartialEq, Eq)]
pub(crate) struct CellRange {
    pub least: i128,
    pub greatest: i128,
}

#[derive(Clone, Copy, Debug, PartialEq, Eq)]
pub(crate) struct CellRanges {
    pub x: CellRange,
    pub y: CellRange,
    pub z: CellRange,
}

// Whether all numbers are below 10^15 in size.
fn are_below_limit(numbers: &[Number]) -> bool
    ensures { IsTrue result ↔ All (λ x. is_below_limit (value_of x) ≡ true) numbers.now }
{
    numbers.iter().all(|number| is_below_limit(number))
}

// Whether there is a number, and all are below 10^15 in size.
fn are_numbers(numbers: &[Number]) -> bool
    ensures { IsTrue result ↔ AreNumbers numbers.now }
{
    !numbers.is_empty() && are_below_limit(numbers)
}

/// Whether there are coordinates along each axis, and each is below 10^15 in size.
pub fn are_coordinates(coordinates: &Coordinates) -> bool
    ensures { IsTrue result ↔ AreCoordinates coordinates.now }
{
    are_numbers(coordinates.x) && are_numbers(coordinates.y) && are_numbers(coordinates.z)
}

fn widened(span: CellRange, cell: i128) -> CellRange
    requires { span.least ≤ℤ span.greatest }
    ensures { IsWidened span cell result }
{
    if cell < span.least {
        CellRange {
            least: cell,
            greatest: span.greatest,
        }
    } else if span.greatest < cell {
        CellRange {
            least: span.least,
            greatest: cell,
        }
    } else {
        span
    }
}

// The least and the greatest cell, if the cells fit on a grid of this size.
pub(crate) fn fitting_span(numbers: &[Number], step: &GridStep, size: GridSize) -> Option<CellRange>
    requires step { IsStep step.now }
    requires numbers { AreNumbers numbers.now }
    ensures found { IfSome result (IsSpanWithin (limit_of size) step.now numbers.now) }
    ensures none { IfNone result (FitsWithin (limit_of size) step.now numbers.now → ⊥) }
{
    let most = size.steps();
    let first = cell(&numbers[0], step);
    let mut span = CellRange {
        least: first,
        greatest: first,
    };
    for number in numbers {
        span = widened(span, cell(number, step));
        if span.greatest - span.least > most {
            return None;
        }
    }
    Some(span)
}

// The least and the greatest cell along each axis, if the cells fit on such a grid along all of them.
pub(crate) fn fitting_spans(
    coordinates: &Coordinates,
    step: &GridStep,
    size: GridSize,
) -> Option<CellRanges>
    requires step { IsStep step.now }
    requires coordinates { AreCoordinates coordinates.now }
    ensures found { IfSome result (AreSpansWithin (limit_of size) step.now coordinates.now) }
    ensures none { IfNone result (FitsAllWithin (limit_of size) step.now coordinates.now → ⊥) }
{
    match fitting_span(coordinates.x, step, size) {
        Some(x) => match fitting_span(coordinates.y, step, size) {
            Some(y) => match fitting_span(coordinates.z, step, size) {
                Some(z) => Some(CellRanges { x, y, z }),
                None => None,
            },
            None => None,
        },
        None => None,
    }
}
