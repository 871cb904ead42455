//! Sources of named files (`Shelf`) and outputs that take bytes (`Sink`). The caller hands them in,
//! and each counts its faults.
#![tactic(auto)]

mod failing;
mod file_index;
mod lists;
mod memory_shelf;
mod memory_sink;
mod real;
mod safe_shelf;
mod shelf;
mod sink;

pub use lists::{Calls, FileSet};
pub use memory_shelf::MemoryShelf;
pub use memory_sink::MemorySink;
pub use real::{FileShelf, StdSink};
pub use safe_shelf::SafeShelf;
pub use shelf::{FaultKind, ReadEnd, Shelf, read_all};
pub use sink::{Sink, WriteFault, write_all};
use thiserror::Error;

/// A call to the outside failed.
#[derive(Clone, Copy, Debug, PartialEq, Eq, Error)]
#[error("a call to the outside failed")]
pub struct Failed;
