// How a call ends.
ghost use Rattle.std.specs.Prelude.{◌≡◌};
ghost use Rattle.ember_verdict.specs.Lines.{number_of};
ghost use Rattle.ember_verdict.specs.declared.status.Status.TheVariants.{OutOfMemory};

use ember_expr::ExprFault;
use ember_mesh::MeshFault;
use ember_obj::ObjFault;
use std::alloc::{AllocError, AllocFailed};
use thiserror::Error;

/// What there is too much of.
#[derive(Clone, Copy, Debug, PartialEq, Eq)]
pub enum LimitKind {
    /// The bytes of the file with this number, from 1.
    Bytes(u32),
    /// The triangles of all files together.
    Triangles,
}

/// Why a face file can't be sliced.
#[derive(Clone, Copy, Debug, PartialEq, Eq, Error)]
pub enum FaceFault {
    /// The bytes aren't a face file.
    #[error("not a face file")]
    Form,
    /// The face with this number, from 1, meets the plane of the slice without bound.
    #[error("face {0} endless")]
    Endless(u32),
}

/// How a call ends. A `u32` is the number of a file, from 1, in the order of the command line.
#[derive(Clone, Copy, Debug, PartialEq, Eq)]
pub enum Status {
    /// All output was taken and flushed.
    Done,
    /// The words are refused.
    Words,
    /// The file could not be read.
    ReadFault(u32),
    /// The output could not be written; a prefix of it was taken.
    WriteFault,
    /// The file has this first fault.
    ObjRefused(u32, ObjFault),
    /// The mesh of the file isn't closed.
    MeshRefused(u32, MeshFault),
    /// The expression has this first fault.
    ExprRefused(ExprFault),
    /// The expression is true if all winding numbers are 0.
    Unbounded,
    /// There are too many bytes or triangles: of triangles this many, of bytes this many or more.
    /// In `Limit(Bytes(i), n)` n is always 268,435,457, one more than a file may have.
    Limit(LimitKind, u64),
    /// The point isn't clear of some triangle.
    NotClear,
    /// The face file has this fault.
    FaceRefused(FaceFault),
    OutOfMemory,
}

impl Status {
    /// The exit status of the program.
    pub fn number(&self) -> u8
        ensures { result ≡ number_of self.now }
    {
        match self {
            Status::Done => 0,
            Status::Words => 2,
            Status::ReadFault(_) => 3,
            Status::WriteFault => 4,
            Status::ObjRefused(_, _) => 5,
            Status::MeshRefused(_, _) => 6,
            Status::ExprRefused(_) => 7,
            Status::Unbounded => 8,
            Status::Limit(_, _) => 9,
            Status::NotClear => 10,
            Status::FaceRefused(_) => 11,
            Status::OutOfMemory => 12,
        }
    }
}

impl From<AllocError> for Status {
    ghost from_gives = { λ _ status. status ≡ OutOfMemory };

    fn from(_e: AllocError) -> Status {
        Status::OutOfMemory
    }
}

impl<T: Drop> From<AllocFailed<T>> for Status {
    ghost from_gives = { λ _ status. status ≡ OutOfMemory };

    fn from(_e: AllocFailed<T>) -> Status {
        Status::OutOfMemory
    }
}
