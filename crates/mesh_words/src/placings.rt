// The values of `--place` and `--turn`.
ghost use Rattle.std.specs.Prelude.{◌≡◌, IfOk, None};
ghost use Rattle.std.specs.Int.{IsInRange};
ghost use Rattle.mesh_placing.specs.Files.{first_place_fault};
ghost use Rattle.mesh_words.specs.declared.names.Setting.TheVariants as setting;
ghost use Rattle.mesh_words.specs.Arguments.{values_in};
ghost use Rattle.mesh_words.specs.Commands.{Reads};
ghost use Rattle.mesh_words.specs.Placings.{places_of, turns_of};

use crate::arguments::{Argument, values_in};
use crate::faults::{Refusal, WordsFault};
use crate::names::Setting;
use ember_words::Texts;
use mesh_placing::{are_files, first_place_fault};
use std::alloc::Global;

/// Copies of the values of `--place`, if each says a placing of one of so many files; otherwise `Place`.
pub fn places(alloc: Global, files: usize, arguments: &[Argument]) -> Result<Texts, WordsFault>
    requires { IsInRange 1 64 files }
    ensures value { Reads (places_of files (values_in setting.Place arguments.now)) result }
    ensures said { IfOk result (λ places. first_place_fault files places ≡ None) }
{
    let places = values_in(alloc, arguments, Setting::Place)?;
    match first_place_fault(alloc, files as u32, places.items())? {
        Some(fault) => Err(WordsFault::Refused(Refusal::Place(fault))),
        None => Ok(places),
    }
}

/// Copies of the values of `--turn`, if each is the number of one of so many files; otherwise `Turn`.
pub fn turns(alloc: Global, files: usize, arguments: &[Argument]) -> Result<Texts, WordsFault>
    requires { IsInRange 1 64 files }
    ensures { Reads (turns_of files (values_in setting.Turn arguments.now)) result }
{
    let turns = values_in(alloc, arguments, Setting::Turn)?;
    if are_files(files as u32, turns.items()) {
        Ok(turns)
    } else {
        Err(WordsFault::Refused(Refusal::Turn))
    }
}
