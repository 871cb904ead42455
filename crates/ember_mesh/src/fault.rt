// What makes triangles no mesh, and meshes no scene.
ghost use Rattle.std.specs.Prelude.{◌≡◌};
ghost use Rattle.ember_mesh.specs.declared.fault.JoinFault.TheVariants.{OutOfMemory};

use ember_balance::Loose;
use std::alloc::AllocError;
use thiserror::Error;

/// The triangles of a file aren't closed, or out-of-memory. The program doesn't print these texts,
/// but its own: see `src/lines.rt` of ember_verdict.
#[derive(Clone, Copy, Debug, PartialEq, Eq, Error)]
pub enum MeshFault {
    /// This edge is the least that occurs more often than its reverse.
    #[error("an edge occurs more often than its reverse")]
    Unbalanced(Loose),
    #[error("out of memory")]
    OutOfMemory,
}

/// All files together have too many triangles, or out-of-memory.
#[derive(Clone, Copy, Debug, PartialEq, Eq, Error)]
pub enum JoinFault {
    /// There are this many triangles: more than 262,144.
    #[error("{0} triangles")]
    TooManyTriangles(u64),
    #[error("out of memory")]
    OutOfMemory,
}

impl From<AllocError> for JoinFault {
    ghost from_gives = { λ _ fault. fault ≡ OutOfMemory };

    fn from(_error: AllocError) -> JoinFault {
        JoinFault::OutOfMemory
    }
}
