// Why there is no segment, or no text of a slice.
ghost use Rattle.std.specs.Prelude.{◌≡◌};
ghost use Rattle.ember_slice.specs.declared.fault.SliceFault.TheVariants.{OutOfMemory};

use std::alloc::{AllocError, AllocFailed};
use thiserror::Error;

/// The inside points of a face in the level plane go on without end.
#[derive(Clone, Copy, Debug, PartialEq, Eq, Error)]
#[error("endless")]
pub struct Endless;

/// Why there is no text of a slice.
#[derive(Clone, Copy, Debug, PartialEq, Eq, Error)]
pub enum SliceFault {
    /// The face with this number, from 1, is the first that is endless.
    #[error("face {0} endless")]
    Endless(u32),
    #[error("out of memory")]
    OutOfMemory,
}

impl From<AllocError> for SliceFault {
    ghost from_gives = { λ _ e. e ≡ OutOfMemory };

    fn from(_e: AllocError) -> SliceFault {
        SliceFault::OutOfMemory
    }
}

impl<T: Drop> From<AllocFailed<T>> for SliceFault {
    ghost from_gives = { λ _ e. e ≡ OutOfMemory };

    fn from(_e: AllocFailed<T>) -> SliceFault {
        SliceFault::OutOfMemory
    }
}
