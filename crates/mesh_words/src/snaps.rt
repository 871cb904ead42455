// The meshes that arguments ask to put on their grid.
ghost use Rattle.std.specs.Prelude.{◌≡◌, IfOk};
ghost use Rattle.mesh_words.specs.Commands.{Reads, IsWithinSnapLimits};
ghost use Rattle.mesh_words.specs.Snaps.{snap_of};

use crate::arguments::{Argument, are_quiet, names_in, value_in};
use crate::command::SnapRequest;
use crate::faults::WordsFault;
use crate::names::Setting;
use crate::targets::snap_fault;
use crate::values::{counted, folder, step};
use std::alloc::Global;

/// The request that the arguments of `snap` make, with 1 to 64 files. Refuses another number of
/// files, wrong options, a folder with inputs that would be written over, a missing folder and a
/// wrong step, in this order.
pub fn snap_of(alloc: Global, arguments: &[Argument]) -> Result<SnapRequest, WordsFault>
    ensures value { Reads (snap_of arguments.now) result }
    ensures limits { IfOk result IsWithinSnapLimits }
{
    let files = counted(names_in(alloc, arguments)?)?;
    if let Some(why) = snap_fault(alloc, arguments)? {
        return Err(WordsFault::Refused(why));
    }
    let folder = folder(alloc, value_in(arguments, Setting::Folder))?;
    let step = step(alloc, value_in(arguments, Setting::Step))?;
    Ok(SnapRequest {
        folder,
        step,
        quiet: are_quiet(arguments),
        files,
    })
}
