// Why faces get no triangles.
ghost use Rattle.std.specs.Prelude.{◌≡◌};
ghost use Rattle.mesh_triangles.specs.declared.fault.TrianglesFault.TheVariants.{OutOfMemory};

use std::alloc::{AllocError, AllocFailed};
use thiserror::Error;

/// Why faces get no certified triangles. Planes, lines and corners are given by their numbers.
#[derive(Clone, Copy, Debug, PartialEq, Eq, Error)]
pub enum TrianglesFault {
    /// A plane, a line or a corner of a segment isn't in its table.
    #[error("plane {0} isn't in the table of planes")]
    UnknownPlane(u32),
    #[error("line {0} isn't in the table of lines")]
    UnknownLine(u32),
    #[error("corner {0} isn't in the table of corners")]
    UnknownCorner(u32),
    /// Somewhere on the line two faces of the plane are on the same side of it.
    #[error("faces of plane {plane} overlap along line {line}")]
    Overlap { plane: u32, line: u32 },
    /// Somewhere on the line more segments run one way than the other.
    #[error("the faces aren't closed along line {0}")]
    NotClosed(u32),
    /// The boundary of the plane's part surrounds no part.
    #[error("no triangles were found in plane {0}")]
    NoTriangles(u32),
    /// Splitting lines at corners didn't end.
    #[error("no triangles were found")]
    NoEnd,
    /// Lines have numbers up to 2^32 - 1: the table or the segments take all of them, or there are
    /// too many diagonals.
    #[error("no number is left for a diagonal's line")]
    NoLineLeft,
    /// Triangles were found that don't cut up the faces.
    #[error("the triangles don't cut up the faces")]
    NotCertified,
    #[error("out of memory")]
    OutOfMemory,
}

impl From<AllocError> for TrianglesFault {
    ghost from_gives = { λ _ fault. fault ≡ OutOfMemory };

    fn from(_error: AllocError) -> TrianglesFault {
        TrianglesFault::OutOfMemory
    }
}

impl<T: Drop> From<AllocFailed<T>> for TrianglesFault {
    ghost from_gives = { λ _ fault. fault ≡ OutOfMemory };

    fn from(_error: AllocFailed<T>) -> TrianglesFault {
        TrianglesFault::OutOfMemory
    }
}
