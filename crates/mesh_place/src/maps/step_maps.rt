// The map of a step.
ghost use Rattle.std.specs.Prelude.{◌≡◌, true, IfOk};
ghost use Rattle.mesh_read.specs.Surface.Surfaces.{point_of};
ghost use Rattle.mesh_place.specs.Integers.{integer_of};
ghost use Rattle.mesh_place.specs.AffineMaps.{row_without, row_of, affine_of};
ghost use Rattle.mesh_place.specs.Directions.{direction_of};
ghost use Rattle.mesh_place.specs.Points.{has_short_numbers, places_at};
ghost use Rattle.mesh_place.specs.Steps.{IsMove, IsScale, IsTurn, IsMapOf, mirror, is_short_step, places_of_step};

use crate::exact::integers::Integer;
use crate::exact::points::ExactPoint;
use crate::maps::affine::{mirrored, row_along};
use crate::maps::axes::{Angle, Axis};
use crate::maps::directions::{Direction, PLACES, direction_at};
use crate::maps::matrices::{AffineMap, Row};
use crate::maps::steps::Step;
use mesh_read::Vertex;
use std::alloc::{AllocError, Global};

// The trillionths of a degree in a full turn.
const FULL_TURN: u64 = 360_000_000_000_000;

// A row without this coordinate, with factors of the other two.
fn row_without(alloc: Global, axis: Axis, a: Integer, b: Integer) -> Result<Row, AllocError>
    ensures { IfOk result (λ r. row_of r ≡ row_without axis (integer_of a) (integer_of b)) }
{
    let zero = Integer::small(alloc, 0)?;
    let offset = Integer::small(alloc, 0)?;
    Ok(match axis {
        Axis::X => Row {
            x: zero,
            y: a,
            z: b,
            offset,
        },
        Axis::Y => Row {
            x: a,
            y: zero,
            z: b,
            offset,
        },
        Axis::Z => Row {
            x: a,
            y: b,
            z: zero,
            offset,
        },
    })
}

// The map that adds these numbers to the coordinates.
fn move_by(alloc: Global, by: &Vertex) -> Result<AffineMap, AllocError>
    requires { has_short_numbers by.now ≡ true }
    ensures map { IfOk result (λ a. IsMove (point_of by.now) (affine_of a)) }
    ensures places { IfOk result (λ a. a.places ≡ places_at by.now) }
{
    let mut point = ExactPoint::origin(alloc)?;
    let places = point.read(by)?;
    let ExactPoint { x, y, z, w } = point;
    let (second, third) = (w.copy(alloc)?, w.copy(alloc)?);
    Ok(AffineMap {
        x: row_along(alloc, Axis::X, w, x)?,
        y: row_along(alloc, Axis::Y, second, y)?,
        z: row_along(alloc, Axis::Z, third, z)?,
        places,
    })
}

// The map that multiplies the coordinates by these numbers.
fn scale_by(alloc: Global, by: &Vertex) -> Result<AffineMap, AllocError>
    requires { has_short_numbers by.now ≡ true }
    ensures map { IfOk result (λ a. IsScale (point_of by.now) (affine_of a)) }
    ensures places { IfOk result (λ a. a.places ≡ places_at by.now) }
{
    let mut point = ExactPoint::origin(alloc)?;
    let places = point.read(by)?;
    let ExactPoint { x, y, z, w: _ } = point;
    Ok(AffineMap {
        x: row_along(alloc, Axis::X, x, Integer::small(alloc, 0)?)?,
        y: row_along(alloc, Axis::Y, y, Integer::small(alloc, 0)?)?,
        z: row_along(alloc, Axis::Z, z, Integer::small(alloc, 0)?)?,
        places,
    })
}

// The turn about an axis by an angle.
fn turn_by(alloc: Global, axis: Axis, angle: Angle) -> Result<AffineMap, AllocError>
    ensures map { IfOk result (λ a. IsTurn axis angle.trillionths (affine_of a)) }
    ensures places { IfOk result (λ a. a.places ≡ PLACES) }
{
    let Direction { cosine, sine } = direction_at(alloc, angle.trillionths, FULL_TURN)?;
    let again = cosine.copy(alloc)?;
    let back = sine.copy(alloc)?.opposite();
    let one = Integer::power_of_ten(alloc, PLACES)?;
    let still = row_along(alloc, axis, one, Integer::small(alloc, 0)?)?;
    let places = PLACES;
    match axis {
        Axis::X => Ok(AffineMap {
            x: still,
            y: row_without(alloc, axis, cosine, back)?,
            z: row_without(alloc, axis, sine, again)?,
            places,
        }),
        Axis::Y => Ok(AffineMap {
            x: row_without(alloc, axis, cosine, sine)?,
            y: still,
            z: row_without(alloc, axis, back, again)?,
            places,
        }),
        Axis::Z => Ok(AffineMap {
            x: row_without(alloc, axis, cosine, back)?,
            y: row_without(alloc, axis, sine, again)?,
            z: still,
            places,
        }),
    }
}

// The map that turns the sign of one coordinate.
fn mirror(alloc: Global, axis: Axis) -> Result<AffineMap, AllocError>
    ensures map { IfOk result (λ a. affine_of a ≡ mirror axis) }
    ensures places { IfOk result (λ a. a.places ≡ 0) }
{
    match axis {
        Axis::X => mirrored(alloc, true, false, false),
        Axis::Y => mirrored(alloc, false, true, false),
        Axis::Z => mirrored(alloc, false, false, true),
    }
}

// The map of a step.
pub(crate) fn map_of_step(alloc: Global, step: &Step) -> Result<AffineMap, AllocError>
    requires { is_short_step step.now ≡ true }
    ensures map { IfOk result (λ a. IsMapOf step.now (affine_of a)) }
    ensures places { IfOk result (λ a. a.places ≡ places_of_step step.now) }
{
    match step {
        Step::Move(by) => move_by(alloc, by),
        Step::Scale(by) => scale_by(alloc, by),
        Step::Turn(axis, angle) => turn_by(alloc, *axis, *angle),
        Step::Mirror(axis) => mirror(alloc, *axis),
    }
}
