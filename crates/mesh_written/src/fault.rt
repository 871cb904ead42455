// Why corners can't be written.
ghost use Rattle.std.specs.Prelude.{◌≡◌};
ghost use Rattle.mesh_written.specs.declared.fault.PlaceFault.TheVariants.{OutOfMemory};

use std::alloc::{AllocError, AllocFailed};

/// Why corners aren't written.
#[derive(Clone, Copy, Debug, PartialEq, Eq, thiserror::Error)]
pub enum PlaceFault {
    /// Along some axis a corner is too far from zero: 2^128 - 2^103 or more for a float, 10^21 or
    /// more for a decimal.
    #[error("a corner is too far from zero")]
    TooFar,
    #[error("out of memory")]
    OutOfMemory,
}

impl From<AllocError> for PlaceFault {
    ghost from_gives = { λ _ fault. fault ≡ OutOfMemory };

    fn from(_error: AllocError) -> PlaceFault {
        PlaceFault::OutOfMemory
    }
}

impl<T: Drop> From<AllocFailed<T>> for PlaceFault {
    ghost from_gives = { λ _ fault. fault ≡ OutOfMemory };

    fn from(_error: AllocFailed<T>) -> PlaceFault {
        PlaceFault::OutOfMemory
    }
}
