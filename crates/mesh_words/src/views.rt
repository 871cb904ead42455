// The page that arguments ask for.
ghost use Rattle.std.specs.Prelude.{◌≡◌, IfOk, length};
ghost use Rattle.std.specs.Int.{IsInRange};
ghost use Rattle.mesh_words.specs.Commands.{Reads};
ghost use Rattle.mesh_words.specs.Views.{view_of};

use crate::arguments::{Argument, names_in, value_in};
use crate::command::ViewRequest;
use crate::faults::WordsFault;
use crate::names::Setting;
use crate::targets::view_fault;
use crate::values::{counted, page};
use std::alloc::Global;

/// The request that the arguments of `view` make, with 1 to 64 files. Refuses another number of
/// files, wrong options, a wrong page and a missing output, in this order.
pub fn view_of(alloc: Global, arguments: &[Argument]) -> Result<ViewRequest, WordsFault>
    ensures value { Reads (view_of arguments.now) result }
    ensures range { IfOk result (λ request. IsInRange 1 64 (length request.files)) }
{
    let files = counted(names_in(alloc, arguments)?)?;
    if let Some(why) = view_fault(alloc, arguments)? {
        return Err(WordsFault::Refused(why));
    }
    let output = page(alloc, value_in(arguments, Setting::Output))?;
    Ok(ViewRequest { output, files })
}
