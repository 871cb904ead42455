// Why a mesh isn't written.
ghost use Rattle.std.specs.Prelude.{◌≡◌};
ghost use Rattle.mesh_boolean.specs.declared.writing_fault.WritingFault.TheVariants.{OutOfMemory};
ghost use Rattle.mesh_boolean.specs.WritingFaults.{of_glb_fault, of_place_fault, of_stl_fault};

use mesh_write::{GlbWriteFault, StlWriteFault};
use mesh_written::PlaceFault;
use std::alloc::AllocError;
use thiserror::Error;

/// Why a mesh isn't written.
#[derive(Clone, Copy, Debug, PartialEq, Eq, Error)]
pub enum WritingFault {
    /// A corner is too far from zero along an axis, in the user's unit: 2^128 - 2^103 or more, so
    /// that no float is nearest to it, or, for a decimal, 10^21 or more. Or floats are so far apart
    /// there that each triangle of the mesh vanishes.
    #[error("a corner is too far from zero")]
    TooFar,
    /// The STL would have 2^32 triangles or more, or the GLB 2^32 bytes or more.
    #[error("too many triangles for the format")]
    TooManyTriangles,
    #[error("out of memory")]
    OutOfMemory,
}

impl From<AllocError> for WritingFault {
    ghost from_gives = { λ _ fault. fault ≡ OutOfMemory };

    fn from(_error: AllocError) -> WritingFault {
        WritingFault::OutOfMemory
    }
}

impl From<PlaceFault> for WritingFault {
    ghost from_gives = { λ cause fault. fault ≡ of_place_fault cause };

    fn from(cause: PlaceFault) -> WritingFault {
        match cause {
            PlaceFault::TooFar => WritingFault::TooFar,
            PlaceFault::OutOfMemory => WritingFault::OutOfMemory,
        }
    }
}

impl From<StlWriteFault> for WritingFault {
    ghost from_gives = { λ cause fault. fault ≡ of_stl_fault cause };

    fn from(cause: StlWriteFault) -> WritingFault {
        match cause {
            StlWriteFault::TooManyTriangles => WritingFault::TooManyTriangles,
            StlWriteFault::OutOfMemory => WritingFault::OutOfMemory,
        }
    }
}

impl From<GlbWriteFault> for WritingFault {
    ghost from_gives = { λ cause fault. fault ≡ of_glb_fault cause };

    fn from(cause: GlbWriteFault) -> WritingFault {
        match cause {
            GlbWriteFault::TooManyTriangles => WritingFault::TooManyTriangles,
            GlbWriteFault::OutOfMemory => WritingFault::OutOfMemory,
        }
    }
}
