// Why words give no command.
ghost use Rattle.std.specs.Prelude.{◌≡◌};
ghost use Rattle.mesh_words.specs.declared.faults.WordsFault.TheVariants.{Refused, OutOfMemory};

use crate::names::Setting;
use mesh_placing::{PlaceFault, ShapeWordFault};
use std::alloc::{AllocError, AllocFailed};
use thiserror::Error;

/// Why the words are refused.
#[derive(Clone, Copy, Debug, PartialEq, Eq, Error)]
pub enum Refusal {
    /// There is no word.
    #[error("no command; see ember-mesh help")]
    NoCommand,
    /// The first word names no command.
    #[error("no such command; see ember-mesh help")]
    UnknownCommand,
    /// The word with this number (the name of the command has the number 0) begins with a hyphen,
    /// and is neither an option nor `-` itself.
    #[error("unknown option; see ember-mesh help")]
    UnknownOption(usize),
    /// The last word is an option whose value is missing.
    #[error("the last option needs a value; see ember-mesh help")]
    NoValue,
    /// There is no file name.
    #[error("no files; see ember-mesh help")]
    NoFiles,
    /// There are more than 64 file names.
    #[error("more than 64 files; see ember-mesh help")]
    TooManyFiles,
    /// Two of the inputs or more are `-`.
    #[error("-: standard input is read once; see ember-mesh help")]
    SecondInput,
    /// The name of a file begins with `box:` or `cylinder:`, and says no shape.
    #[error("{0}; see ember-mesh help")]
    Shape(ShapeWordFault),
    /// `bool` has no `--expr`.
    #[error("--expr is missing; see ember-mesh help")]
    NoExpression,
    /// Another command than `bool` has an `--expr`.
    #[error("--expr is for bool alone; see ember-mesh help")]
    NeedlessExpression,
    /// The command doesn't take this option.
    #[error("the option is not for this command; see ember-mesh help")]
    NotFor(Setting),
    /// An option that names what is written has two values.
    #[error("the option is given twice; see ember-mesh help")]
    Twice(Setting),
    /// The page that the option names ends neither in `.html` nor in `.htm`.
    #[error("the name of the page must end in .html or .htm")]
    PageEnding(Setting),
    /// The page that the option names, or a file in its folder, is the input with this number, from
    /// 0. The file that `--scene` names counts behind the others.
    #[error("a file that is read would be written over; give another name")]
    OverInput(Setting, usize),
    /// The page that the option names, or a file in its folder, is the output that `-o` names.
    #[error("a file would be written twice; give another name")]
    OverOutput(Setting),
    /// `export` has no file name, or more than one.
    #[error("export takes one document; see ember-mesh help")]
    NotOneDocument,
    /// `snap` has no `-d`.
    #[error("-d is missing; see ember-mesh help")]
    NoFolder,
    /// There is no `-o`.
    #[error("-o is missing; see ember-mesh help")]
    NoOutput,
    /// The output is `-`, and there is no `--format`.
    #[error("--format is missing; see ember-mesh help")]
    NoFormat,
    /// There is a `--format`, and the output is a file.
    #[error("--format is for -o - alone; see ember-mesh help")]
    NeedlessFormat,
    /// The value of `--format` is none of `stl`, `obj`, `ply`, `off` and `glb`.
    #[error("--format: not one of stl, obj, ply, off and glb; see ember-mesh help")]
    UnknownFormat,
    /// The name of the output ends in none of `.stl`, `.obj`, `.ply`, `.off` and `.glb`.
    #[error("-o: the name must end in .stl, .obj, .ply, .off or .glb")]
    OutputEnding,
    /// The value of `--step` is neither `nice` nor `finest` nor a decimal above 0.
    #[error("--step: not a number above 0")]
    NotAStep,
    /// The value of `--workers` isn't a number from 1 to 64.
    #[error("--workers: not a number from 1 to 64; see ember-mesh help")]
    Workers,
    /// The value of `--digits` isn't a number from 0 to 17.
    #[error("--digits: not a number from 0 to 17; see ember-mesh help")]
    Digits,
    /// A value of `--place` says no placing of a file.
    #[error("--place: {0}; see ember-mesh help")]
    Place(PlaceFault),
    /// A value of `--turn` isn't the number of a file.
    #[error("--turn: not the number of a file; see ember-mesh help")]
    Turn,
}

/// Why words give no command.
#[derive(Clone, Copy, Debug, PartialEq, Eq, Error)]
pub enum WordsFault {
    #[error("{0}")]
    Refused(Refusal),
    #[error("out of memory")]
    OutOfMemory,
}

impl From<Refusal> for WordsFault {
    ghost from_gives = { λ why fault. fault ≡ Refused why };

    fn from(why: Refusal) -> WordsFault {
        WordsFault::Refused(why)
    }
}

impl From<AllocError> for WordsFault {
    ghost from_gives = { λ _ fault. fault ≡ OutOfMemory };

    fn from(_error: AllocError) -> WordsFault {
        WordsFault::OutOfMemory
    }
}

impl<T: Drop> From<AllocFailed<T>> for WordsFault {
    ghost from_gives = { λ _ fault. fault ≡ OutOfMemory };

    fn from(_error: AllocFailed<T>) -> WordsFault {
        WordsFault::OutOfMemory
    }
}
