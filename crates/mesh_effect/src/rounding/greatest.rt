// The greatest move of a corner.
ghost use Rattle.std.specs.Prelude.{◌≤◌, IfOk, IfErr};
ghost use Rattle.mesh_grid.specs.Snap.Steps.{IsStep};
ghost use Rattle.mesh_written.specs.Floats.{AreFloatPoints, IsFloatFault};
ghost use Rattle.mesh_written.specs.Decimals.{IsDecimalFault};
ghost use Rattle.mesh_effect.specs.Rounding.Given.{IsGreatestDecimalMove, IsGreatestFloatMove};

use crate::rounding::decimals::decimal_squares;
use crate::rounding::floats::{float_squares, top_place};
use crate::rounding::length::Move;
use crate::rounding::shown::move_from;
use crate::rounding::squares::greatest_square;
use crate::rounding::tick::{decimal_tick, power_tick};
use mesh_certificate::Triangle;
use mesh_grid::{GridStep, Offset};
use mesh_point::SpacePoint;
use mesh_write::FloatPoint;
use mesh_written::PlaceFault;
use std::alloc::Global;

/// How far a corner of the triangles is from its point of floats at most: a length that isn't below
/// the true one, with at most nine digits behind the point's zeros. It is 0 if no corner moves.
///
/// `points` has the point nearest to each corner of the table. A corner of the table that is 2^128 -
/// 2^103 or more from zero is a fault.
pub fn greatest_float_move(
    alloc: Global,
    corners: &[SpacePoint],
    points: &[FloatPoint],
    triangles: &[Triangle],
    step: &GridStep,
    offset: &Offset,
) -> Result<Move, PlaceFault>
    requires step { IsStep step.now }
    requires points { AreFloatPoints step.now offset.now corners.now points.now }
    ensures moved { IfOk result
        (IsGreatestFloatMove step.now offset.now corners.now points.now triangles.now) }
    ensures fault { IfErr result (IsFloatFault step.now offset.now corners.now) }
{
    let top = top_place(points);
    let squares = float_squares(alloc, corners, points, step, offset, top)?;
    let square = greatest_square(&squares, triangles);
    Ok(move_from(square, &power_tick(top)))
}

/// How far a corner of the triangles is from its nearest decimals at most: a length that isn't below
/// the true one, with at most nine digits behind the point's zeros. It is 0 if no corner moves.
///
/// There are at most 17 places. A corner of the table that is 10^21 or more from zero is a fault.
pub fn greatest_decimal_move(
    alloc: Global,
    corners: &[SpacePoint],
    triangles: &[Triangle],
    step: &GridStep,
    offset: &Offset,
    places: u32,
) -> Result<Move, PlaceFault>
    requires step { IsStep step.now }
    requires places { places ≤ 17 }
    ensures moved { IfOk result
        (IsGreatestDecimalMove places step.now offset.now corners.now triangles.now) }
    ensures fault { IfErr result (IsDecimalFault step.now offset.now corners.now) }
{
    let squares = decimal_squares(alloc, corners, step, offset, places)?;
    let square = greatest_square(&squares, triangles);
    Ok(move_from(square, &decimal_tick(places)))
}
