// Why a sweep ends early.
ghost use Rattle.std.specs.Prelude.{◌≡◌};
ghost use Rattle.mesh_triangulate.specs.declared.stop.Stop.TheVariants.{OutOfMemory};

use std::alloc::{AllocError, AllocFailed};
use thiserror::Error;

/// Why a sweep ends early.
#[derive(Clone, Copy, Debug, PartialEq, Eq, Error)]
pub enum Stop {
    #[error("out of memory")]
    OutOfMemory,
    /// A corner has no point, or isn't where a segment starts.
    #[error("no triangles were found")]
    NotFound,
    /// A corner lies inside a segment.
    #[error("a corner lies inside a segment")]
    Touch,
}

impl From<AllocError> for Stop {
    ghost from_gives = { λ _ stop. stop ≡ OutOfMemory };

    fn from(_e: AllocError) -> Stop {
        Stop::OutOfMemory
    }
}

impl<T: Drop> From<AllocFailed<T>> for Stop {
    ghost from_gives = { λ _ stop. stop ≡ OutOfMemory };

    fn from(_e: AllocFailed<T>) -> Stop {
        Stop::OutOfMemory
    }
}
