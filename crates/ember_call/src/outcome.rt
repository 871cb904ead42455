// What a call gives.
ghost use Rattle.ember_call.specs.Outcomes.{SaysNothing};

use mesh_outside::NamedFile;
use std::alloc::Global;

/// What a program would leave.
#[derive(Drop)]
pub struct Outcome {
    /// The exit status of the program: 0 if it did what the words ask for.
    pub status: u32,
    /// The number of the file at fault, from 1, in the order in which the words name them; 0 if none is
    /// known to be.
    pub file: u32,
    /// The line, facet, vertex or face of that file, from 1; 0 if none is known.
    pub place: u64,
    /// What goes to standard output.
    pub out: Vec<u8>,
    /// What goes to standard error.
    pub err: Vec<u8>,
    /// The files that are written, in this order.
    pub files: Vec<NamedFile>,
}

/// The exit status of a program that lacks memory.
pub const NO_MEMORY: u32 = 12;

/// The exit status of a program if a word isn't text.
pub const NO_TEXT: u32 = 13;

/// The outcome with this status in which nothing is written. It allocates nothing.
pub fn nothing_said(alloc: Global, status: u32) -> Outcome
    ensures { SaysNothing status result }
{
    Outcome {
        status,
        file: 0,
        place: 0,
        out: Vec::new(alloc),
        err: Vec::new(alloc),
        files: Vec::new(alloc),
    }
}
