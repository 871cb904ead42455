// The commands of the program.
ghost use Rattle.std.specs.Prelude.{◌≡◌};
ghost use Rattle.ember_words.specs.declared.command.WordsFault.TheVariants.{OutOfMemory};

use crate::text::{Text, Texts};
use ember_model::Spot;
use std::alloc::{AllocError, AllocFailed};
use thiserror::Error;

/// What the words ask for. Numbers have the type in which they are read. `workers` is 1 to 64,
/// `places` 0 to 3; there are 1 to 64 files, and no name and no expression is empty.
#[derive(Drop)]
pub enum Command {
    /// Write the face of each triangle of a file.
    Faces {
        places: u32,
        file: Text,
    },
    /// Print the winding numbers at a valid point, and the value of the expression.
    At {
        point: Spot,
        expr: Option<Text>,
        places: u32,
        files: Texts,
    },
    /// Write the faces of the Boolean.
    Boole {
        expr: Text,
        workers: u32,
        places: u32,
        report: bool,
        files: Texts,
    },
    /// Run the Boolean of 1 to 20000 generated boxes.
    Demo {
        boxes: u32,
        workers: u32,
    },
    /// Sample the solid on a lattice whose cells have the side `2 ^ size`, for a size of 4 to 12.
    Voxels {
        expr: Text,
        size: u32,
        workers: u32,
        places: u32,
        files: Texts,
    },
    /// List the triangles that cross or overlap.
    Pairs {
        workers: u32,
        places: u32,
        files: Texts,
    },
    /// Write the segments in which the faces of a face file meet the plane z = at + 1/2, for an
    /// `at` from -2048 to 2047.
    Slice {
        at: i32,
        file: Text,
    },
}

/// Why the words give no command.
#[derive(Clone, Copy, Debug, PartialEq, Eq, Error)]
pub enum WordsFault {
    /// The words are refused.
    #[error("words refused")]
    Words,
    #[error("out of memory")]
    OutOfMemory,
}

impl From<AllocError> for WordsFault {
    ghost from_gives = { λ _ fault. fault ≡ OutOfMemory };

    fn from(_error: AllocError) -> WordsFault {
        WordsFault::OutOfMemory
    }
}

impl<T: Drop> From<AllocFailed<T>> for WordsFault {
    ghost from_gives = { λ _ fault. fault ≡ OutOfMemory };

    fn from(_error: AllocFailed<T>) -> WordsFault {
        WordsFault::OutOfMemory
    }
}
