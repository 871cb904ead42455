// How a call ends.
ghost use Rattle.std.specs.Prelude.{◌≡◌};
ghost use Rattle.mesh_refusal.specs.Numbers.{document_number, number_of};
ghost use Rattle.mesh_refusal.specs.declared.status.Status.TheVariants.{OutOfMemory};

use ember_expr::ExprFault;
use ember_io::FaultKind;
use mesh_file::Format;
use mesh_grid::SceneExtent;
use mesh_scene::Open;
use mesh_solid::{DocumentFault, SolidFault};
use mesh_words::Refusal;
use std::alloc::{AllocError, AllocFailed};

/// How a call ends. A `u32` is the number of a file, from 1, in the order of the command line.
#[derive(Debug, Drop)]
pub enum Status {
    /// What the words ask for was written.
    Done,
    /// The words are refused.
    Words(Refusal),
    /// The value of `--step` is a decimal above 0, but no grid can have it as its step.
    StepOfNoGrid,
    /// The file can't be read, for this reason.
    ReadFault(u32, FaultKind),
    /// Standard output can't be written.
    WriteFault,
    /// The file of this name can't be written; what its name held is still there.
    NotWritten(String),
    /// The file is no scene of a grid. It is the first that is read.
    NotAScene,
    /// The document has no mesh.
    DocumentRefused(DocumentFault),
    /// The file is refused, for this reason: the place, the fault and the remedy.
    FileRefused(u32, String),
    /// The files have no triangles. It isn't proved that this never happens, since a file without
    /// triangles is refused.
    NoTriangles,
    /// The mesh of a file isn't closed on the grid; the file has this format. The index of the file
    /// is from 0 here.
    NotClosed(Open, Format),
    /// The expression has this first fault.
    ExprRefused(ExprFault),
    /// The expression is true outside all meshes.
    Unbounded,
    /// The file has more than 268,435,456 bytes.
    LongFile(u32),
    /// The meshes have this many triangles on the grid: more than 262,144.
    TooManyTriangles(u64),
    /// The result has 2^32 triangles or more, too many for an STL.
    TooManyWritten,
    /// The meshes don't fit on a grid with the given step. They are so long, and this is the finest
    /// step with which they fit.
    StepTooSmall(SceneExtent),
    /// A corner of the result is too far from 0 for the numbers of the output's format, or all of its
    /// triangles vanish there.
    TooFar,
    OutOfMemory,
    /// No certified triangles were found for the result. It isn't proved that this never happens.
    Uncertified(SolidFault),
}

// The exit status of a document that has no mesh: it is refused, or no certified triangles were found.
fn document_number(fault: &DocumentFault) -> u8
    ensures { result ≡ document_number fault.now }
{
    match fault {
        DocumentFault::NotCut(_) => 14,
        _ => 11,
    }
}

impl Status {
    /// The exit status of the program.
    pub fn number(&self) -> u8
        ensures { result ≡ number_of self.now }
    {
        match self {
            Status::Done => 0,
            Status::Words(_) | Status::StepOfNoGrid => 2,
            Status::ReadFault(_, _) => 3,
            Status::WriteFault | Status::NotWritten(_) => 4,
            Status::FileRefused(_, _) | Status::NoTriangles | Status::NotAScene => 5,
            Status::NotClosed(_, _) => 6,
            Status::ExprRefused(_) => 7,
            Status::Unbounded => 8,
            Status::LongFile(_) | Status::TooManyTriangles(_) | Status::TooManyWritten => 9,
            Status::StepTooSmall(_) | Status::TooFar => 10,
            Status::DocumentRefused(fault) => document_number(fault),
            Status::OutOfMemory => 12,
            Status::Uncertified(_) => 14,
        }
    }
}

impl From<AllocError> for Status {
    ghost from_gives = { λ _ status. status ≡ OutOfMemory };

    fn from(_error: AllocError) -> Status {
        Status::OutOfMemory
    }
}

impl<T: Drop> From<AllocFailed<T>> for Status {
    ghost from_gives = { λ _ status. status ≡ OutOfMemory };

    fn from(_error: AllocFailed<T>) -> Status {
        Status::OutOfMemory
    }
}
