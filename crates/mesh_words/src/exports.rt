// The document whose mesh arguments ask for.
ghost use Rattle.std.specs.Prelude.{◌≡◌, ◌≤◌, IfOk, IfSome};
ghost use Rattle.mesh_words.specs.Commands.{Reads};
ghost use Rattle.mesh_words.specs.Exports.{document_of, export_of};

use crate::arguments::{Argument, are_quiet, names_in, value_in};
use crate::command::ExportRequest;
use crate::faults::{Refusal, WordsFault};
use crate::names::Setting;
use crate::targets::export_fault;
use crate::texts::copied;
use crate::values::{digits, format_at, optional, output};
use ember_words::{Text, Texts};
use std::alloc::Global;

// The only name.
fn document(alloc: Global, names: &Texts) -> Result<Text, WordsFault>
    ensures { Reads (document_of names.now) result }
{
    match names.items() {
        [name] => Ok(copied(alloc, name.as_str())?),
        _ => Err(WordsFault::Refused(Refusal::NotOneDocument)),
    }
}

/// The request that the arguments of `export` make. Refuses any number of file names but one, wrong
/// options, a wrong page, a missing or wrong output and wrong digits, in this order.
pub fn export_of(alloc: Global, arguments: &[Argument]) -> Result<ExportRequest, WordsFault>
    ensures value { Reads (export_of arguments.now) result }
    ensures digits { IfOk result (λ request. IfSome request.digits (λ n. n ≤ 17)) }
{
    let document = document(alloc, &names_in(alloc, arguments)?)?;
    if let Some(why) = export_fault(alloc, arguments)? {
        return Err(WordsFault::Refused(why));
    }
    let output = output(alloc, value_in(arguments, Setting::Output))?;
    let format = format_at(&output, value_in(arguments, Setting::Format))?;
    let digits = digits(value_in(arguments, Setting::Digits))?;
    Ok(ExportRequest {
        document,
        scene: optional(alloc, value_in(arguments, Setting::Scene))?,
        output,
        format,
        digits,
        view: optional(alloc, value_in(arguments, Setting::Page))?,
        quiet: are_quiet(arguments),
    })
}
