// Why the written edges of a face aren't its outline.
ghost use Rattle.std.specs.Prelude.{◌≡◌};
ghost use Rattle.mesh_solid.specs.declared.outline.fault.OutlineFault.TheVariants.{OutOfMemory};

use std::alloc::{AllocError, AllocFailed};
use thiserror::Error;

/// Why the written edges of a face aren't its outline.
#[derive(Clone, Copy, Debug, PartialEq, Eq, Error)]
pub enum OutlineFault {
    /// A corner isn't on the plane of the face.
    #[error("a corner off its plane")]
    OffPlane,
    /// An edge starts or ends off its own plane.
    #[error("a corner off its edge")]
    OffEdge,
    /// The edges don't lead once around a convex polygon, counter-clockwise as seen from the front.
    #[error("edges that don't lead around it")]
    NotRound,
    #[error("out of memory")]
    OutOfMemory,
}

impl From<AllocError> for OutlineFault {
    ghost from_gives = { λ _ e. e ≡ OutOfMemory };

    fn from(_e: AllocError) -> OutlineFault {
        OutlineFault::OutOfMemory
    }
}

impl<T: Drop> From<AllocFailed<T>> for OutlineFault {
    ghost from_gives = { λ _ e. e ≡ OutOfMemory };

    fn from(_e: AllocFailed<T>) -> OutlineFault {
        OutlineFault::OutOfMemory
    }
}
