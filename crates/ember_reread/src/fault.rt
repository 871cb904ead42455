// Why bytes give no faces.
ghost use Rattle.std.specs.Prelude.{◌≡◌};
ghost use Rattle.ember_reread.specs.declared.fault.RereadFault.TheVariants.{OutOfMemory};

use std::alloc::{AllocError, AllocFailed};
use thiserror::Error;

/// Why bytes give no faces.
#[derive(Clone, Copy, Debug, PartialEq, Eq, Error)]
pub enum RereadFault {
    /// The bytes aren't a face file.
    #[error("not a face file")]
    Form,
    #[error("out of memory")]
    OutOfMemory,
}

impl From<AllocError> for RereadFault {
    ghost from_gives = { λ _ e. e ≡ OutOfMemory };

    fn from(_e: AllocError) -> RereadFault {
        RereadFault::OutOfMemory
    }
}

impl<T: Drop> From<AllocFailed<T>> for RereadFault {
    ghost from_gives = { λ _ e. e ≡ OutOfMemory };

    fn from(_e: AllocFailed<T>) -> RereadFault {
        RereadFault::OutOfMemory
    }
}
