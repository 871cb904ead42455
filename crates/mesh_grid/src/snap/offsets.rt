// Where a grid lies.
ghost use Rattle.std.specs.Prelude.{◌≡◌, IfSome, IfNone};
ghost use Rattle.ember_model.specs.Limits.{broad_limit};
ghost use Rattle.mesh_grid.specs.Snap.Sizes.{limit_of};
ghost use Rattle.mesh_grid.specs.Snap.Steps.{IsStep};
ghost use Rattle.mesh_grid.specs.Snap.Spans.{FitsAll, FitsAllWithin, AreCoordinates, IsNarrowWithin, AreNarrowWithin};
ghost use Rattle.mesh_grid.specs.Snap.Offsets.{middle_of, is_central_within, offset_of_within, IsOffset, IsOffsetWithin, LandsOnGrid, LandsOnGridWithin};

use crate::snap::sizes::GridSize;
use crate::snap::spans::{CellRange, CellRanges, Coordinates, fitting_spans};
use crate::snap::steps::GridStep;

/// The cells at a grid's zero: along x the number g on the grid is the cell g + `x`.
#[derive(Clone, Copy, Debug, PartialEq, Eq)]
pub struct Offset {
    pub x: i128,
    pub y: i128,
    pub z: i128,
}

// Whether the cells are numbers on a grid of this size.
fn is_central(span: &CellRange, size: GridSize) -> bool
    ensures { result ≡ is_central_within (limit_of size) span.now }
{
    let limit = size.limit();
    span.least >= -limit && span.greatest <= limit
}

fn middle(span: &CellRange) -> i128
    requires { IsNarrowWithin broad_limit span.now }
    ensures { result ≡ middle_of span.now }
{
    span.least + (span.greatest - span.least).div_euclid(2)
}

fn offset_of(spans: &CellRanges, size: GridSize) -> Offset
    requires { AreNarrowWithin broad_limit spans.now }
    ensures { result ≡ offset_of_within (limit_of size) spans.now }
{
    if is_central(&spans.x, size) && is_central(&spans.y, size) && is_central(&spans.z, size) {
        Offset { x: 0, y: 0, z: 0 }
    } else {
        Offset {
            x: middle(&spans.x),
            y: middle(&spans.y),
            z: middle(&spans.z),
        }
    }
}

/// The offset of the grid of this size with this step: 0 along all axes if all cells are numbers on
/// it, otherwise the middle of the least and the greatest cell along each. None if the coordinates
/// don't fit.
///
/// There are coordinates along each axis, and each is below 10^15 in size. With the offset, all of
/// them land on the grid: at most as far from its zero as it reaches.
pub fn offset_within(coordinates: &Coordinates, step: &GridStep, size: GridSize) -> Option<Offset>
    requires step { IsStep step.now }
    requires coordinates { AreCoordinates coordinates.now }
    ensures found { IfSome result (IsOffsetWithin (limit_of size) step.now coordinates.now) }
    ensures lands { IfSome result (LandsOnGridWithin (limit_of size) step.now coordinates.now) }
    ensures none { IfNone result (FitsAllWithin (limit_of size) step.now coordinates.now → ⊥) }
{
    match fitting_spans(coordinates, step, size) {
        Some(spans) => Some(offset_of(&spans, size)),
        None => None,
    }
}

/// [`offset_within`] for the narrow grid: all coordinates land at most 2047 from its zero.
///
/// There are coordinates along each axis, and each is below 10^15 in size.
pub fn offset_at(coordinates: &Coordinates, step: &GridStep) -> Option<Offset>
    requires step { IsStep step.now }
    requires coordinates { AreCoordinates coordinates.now }
    ensures found { IfSome result (IsOffset step.now coordinates.now) }
    ensures lands { IfSome result (LandsOnGrid step.now coordinates.now) }
    ensures none { IfNone result (FitsAll step.now coordinates.now → ⊥) }
{
    offset_within(coordinates, step, GridSize::Narrow)
}
