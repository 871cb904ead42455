// The steps of a placing, and why they have no map.
ghost use Rattle.std.specs.Prelude.{◌≡◌, ◌≤◌, true};
ghost use Rattle.mesh_place.specs.declared.maps.steps.StepsFault.TheVariants as steps;
ghost use Rattle.mesh_place.specs.Steps.{is_short_step, places_of_step};

use crate::exact::points::{has_short_numbers, places_at};
use crate::maps::axes::{Angle, Axis};
use crate::maps::directions::PLACES;
use mesh_read::Vertex;
use std::alloc::AllocError;
use thiserror::Error;

/// A step of a placing.
#[derive(Clone, Copy)]
pub enum Step<'a> {
    /// Adds these numbers to the coordinates.
    Move(Vertex<'a>),
    /// Multiplies the coordinates by these numbers.
    Scale(Vertex<'a>),
    /// Turns about an axis: about x from y to z, about y from z to x, about z from x to y.
    Turn(Axis, Angle),
    /// Turns the sign of one coordinate.
    Mirror(Axis),
}

/// Why steps have no map, or out-of-memory. Steps are counted from 0. The first fault counts; of one
/// step, in the order of this list.
#[derive(Clone, Copy, Debug, PartialEq, Eq, Error)]
pub enum StepsFault {
    /// Out of memory.
    #[error("out of memory")]
    OutOfMemory,
    /// A number of this step has more than 4,999 digits, together with the size of its exponent.
    #[error("step {0}: a number is too long")]
    TooLong(usize),
    /// With this step, the numbers of the map would have more than 4,999 decimal places.
    #[error("step {0}: too many decimal places")]
    TooFine(usize),
    /// This step makes everything flat.
    #[error("step {0}: a factor is 0")]
    Flat(usize),
}

impl From<AllocError> for StepsFault {
    ghost from_gives = { λ _ e. e ≡ steps.OutOfMemory };

    fn from(_error: AllocError) -> StepsFault {
        StepsFault::OutOfMemory
    }
}

// Whether the numbers of the step are short.
pub(crate) fn is_short_step(step: &Step) -> bool
    ensures { result ≡ is_short_step step.now }
{
    match step {
        Step::Move(by) => has_short_numbers(by),
        Step::Scale(by) => has_short_numbers(by),
        Step::Turn(_, _) => true,
        Step::Mirror(_) => true,
    }
}

// The decimal places of the numbers of the step's map.
pub(crate) fn places_of_step(step: &Step) -> usize
    requires { is_short_step step.now ≡ true }
    ensures value { result ≡ places_of_step step.now }
    ensures few { result ≤ 4999 }
{
    match step {
        Step::Move(by) => places_at(by),
        Step::Scale(by) => places_at(by),
        Step::Turn(_, _) => PLACES,
        Step::Mirror(_) => 0,
    }
}
