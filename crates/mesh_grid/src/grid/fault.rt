// What makes a scene no grid, and a surface no mesh.
ghost use Rattle.std.specs.Prelude.{◌≡◌};
ghost use Rattle.mesh_grid.specs.declared.grid.fault.SnapFault.TheVariants.{OutOfMemory};

use crate::grid::extent::SceneExtent;
use std::alloc::AllocError;
use thiserror::Error;

/// There is no grid as it is wanted, or out-of-memory.
#[derive(Clone, Copy, Debug, PartialEq, Eq, Error)]
pub enum GridFault {
    #[error("no triangles")]
    NoTriangles,
    /// The surfaces don't fit on a grid with the given step. They are so long, and the finest step
    /// at which they fit is this one.
    #[error("the step is too small")]
    StepTooSmall(SceneExtent),
    #[error("out of memory")]
    OutOfMemory,
}

/// A surface has too many triangles, or out-of-memory.
#[derive(Clone, Copy, Debug, PartialEq, Eq, Error)]
pub enum SnapFault {
    /// This many triangles are left on the grid: more than 262,144.
    #[error("{0} triangles")]
    TooManyTriangles(u64),
    #[error("out of memory")]
    OutOfMemory,
}

impl From<AllocError> for SnapFault {
    ghost from_gives = { λ _ fault. fault ≡ OutOfMemory };

    fn from(_error: AllocError) -> SnapFault {
        SnapFault::OutOfMemory
    }
}
