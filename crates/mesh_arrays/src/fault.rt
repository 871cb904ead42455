// Why triangles aren't put into an array.
ghost use Rattle.std.specs.Prelude.{◌≡◌};
ghost use Rattle.mesh_arrays.specs.declared.fault.IndexFault.TheVariants.{OutOfMemory};

use std::alloc::{AllocError, AllocFailed};
use thiserror::Error;

/// Why triangles aren't put into an array.
#[derive(Clone, Copy, Debug, PartialEq, Eq, Error)]
pub enum IndexFault {
    /// A corner has an index of 2^32 or more.
    #[error("too many vertices for indices of 32 bits")]
    TooManyVertices,
    #[error("out of memory")]
    OutOfMemory,
}

impl From<AllocError> for IndexFault {
    ghost from_gives = { λ _ fault. fault ≡ OutOfMemory };

    fn from(_error: AllocError) -> IndexFault {
        IndexFault::OutOfMemory
    }
}

impl<T: Drop> From<AllocFailed<T>> for IndexFault {
    ghost from_gives = { λ _ fault. fault ≡ OutOfMemory };

    fn from(_error: AllocFailed<T>) -> IndexFault {
        IndexFault::OutOfMemory
    }
}
