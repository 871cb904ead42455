// Why there is no shape.
ghost use Rattle.std.specs.Prelude.{◌≡◌};
ghost use Rattle.mesh_place.specs.declared.shapes.fault.ShapeFault.TheVariants as shape;

use crate::maps::steps::StepsFault;
use std::alloc::{AllocError, AllocFailed};
use thiserror::Error;

/// Why there is no shape, or out-of-memory.
#[derive(Clone, Copy, Debug, PartialEq, Eq, Error)]
pub enum ShapeFault {
    /// Out of memory.
    #[error("out of memory")]
    OutOfMemory,
    /// A number of this box has more than 4,999 digits, together with the size of its exponent.
    #[error("a number is too long")]
    TooLong,
    /// Two corners of this box have a coordinate in common, so it has no volume.
    #[error("no volume")]
    Flat,
    /// This cylinder has fewer than 3 sides, or more than 4,096.
    #[error("not 3 to 4,096 sides")]
    Sides,
    /// The unit cylinder can't be scaled (step 0) by the radius and the height, or not moved (step 1).
    #[error(transparent)]
    NoMap(StepsFault),
}

impl From<AllocError> for ShapeFault {
    ghost from_gives = { λ _ e. e ≡ shape.OutOfMemory };

    fn from(_error: AllocError) -> ShapeFault {
        ShapeFault::OutOfMemory
    }
}

impl<T: Drop> From<AllocFailed<T>> for ShapeFault {
    ghost from_gives = { λ _ e. e ≡ shape.OutOfMemory };

    fn from(_error: AllocFailed<T>) -> ShapeFault {
        ShapeFault::OutOfMemory
    }
}
