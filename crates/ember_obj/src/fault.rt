// What makes a file no mesh.
use ember_dec::DecFault;
use thiserror::Error;

/// The first fault of a file, with its line, or out-of-memory. A line that is joined from several
/// has the number of the first of them, from 1. The program doesn't print these texts, but its own:
/// see `src/lines.rt` of ember_verdict.
#[derive(Clone, Copy, Debug, PartialEq, Eq, Error)]
pub enum ObjFault {
    /// A vertex has fewer than three coordinates, or the index of a reference isn't a number.
    #[error("line {0}: word")]
    Word(u32),
    /// A coordinate has this fault.
    #[error("line {0}: coordinate {1}")]
    Coordinate(u32, DecFault),
    /// An index is 0, or names no vertex that is defined before its line.
    #[error("line {0}: index")]
    Index(u32),
    /// A face has fewer than three corners.
    #[error("line {0}: few corners")]
    FewCorners(u32),
    /// The line has more than 65,536 bytes, its comments dropped.
    #[error("line {0}: long line")]
    LongLine(u32),
    /// The file has more than 262,144 vertices, or more than 262,144 triangles.
    #[error("line {0}: too many")]
    TooMany(u32),
    #[error("out of memory")]
    OutOfMemory,
}
