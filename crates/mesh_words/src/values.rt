// The values of options.
ghost use Rattle.std.specs.Prelude.{◌≡◌, ◌≤◌, ◌-◌, IfOk, IfSome, drop, length, option_map};
ghost use Rattle.std.specs.Int.{IsInRange};
ghost use Rattle.std.specs.Str.{str_eq_ignore_ascii_case};
ghost use Rattle.mesh_words.specs.Names.{operator_of};
ghost use Rattle.mesh_words.specs.Values.{files_of, expression_of, folder_of, page_of, output_of, ends_in, format_of, format_named, format_at, step_of, workers_of, digits_of};
ghost use Rattle.mesh_words.specs.Commands.{Reads, IsValidStep};

use crate::command::{Destination, OutputFormat, WantedStep};
use crate::expressions::joined;
use crate::faults::{Refusal, WordsFault};
use crate::names::Operation;
use crate::numbers::is_above_zero;
use crate::streams::{is_stream, reads_twice};
use crate::texts::copied;
use ember_words::{Text, Texts};
use mesh_number::number_below;
use mesh_placing::first_shape_fault;
use std::alloc::{AllocError, Global};

/// The same names, if there are 1 to 64 of them, at most one is `-`, and each that begins as a shape
/// says one. Otherwise `NoFiles`, `TooManyFiles`, `SecondInput` or `Shape`.
pub fn counted(names: Texts) -> Result<Texts, Refusal>
    ensures value { result ≡ files_of names }
    ensures range { IfOk result (λ files. IsInRange 1 64 (length files)) }
{
    let count = names.items().len();
    if count == 0 {
        return Err(Refusal::NoFiles);
    }
    if count > 64 {
        return Err(Refusal::TooManyFiles);
    }
    if reads_twice(names.items()) {
        return Err(Refusal::SecondInput);
    }
    if let Some(fault) = first_shape_fault(names.items()) {
        return Err(Refusal::Shape(fault));
    }
    Ok(names)
}

/// The expression over 1 to 64 meshes: a copy of the given one, or the meshes joined by the
/// operation's operator. `NoExpression` if there is neither, `NeedlessExpression` if both.
pub fn expression(
    alloc: Global,
    operation: Operation,
    meshes: usize,
    given: Option<&Text>,
) -> Result<Text, WordsFault>
    requires { IsInRange 1 64 meshes }
    ensures { Reads (expression_of (operator_of operation) meshes (option_map (λ text. text.now) given.entry)) result }
{
    match (operation.operator(), given) {
        (None, None) => Err(WordsFault::Refused(Refusal::NoExpression)),
        (None, Some(text)) => Ok(copied(alloc, text.as_str())?),
        (Some(_), Some(_)) => Err(WordsFault::Refused(Refusal::NeedlessExpression)),
        (Some(operator), None) => Ok(Text::of(joined(alloc, operator, meshes - 1)?)),
    }
}

/// A copy of the folder's name; `NoFolder` if none is given.
pub fn folder(alloc: Global, given: Option<&Text>) -> Result<Text, WordsFault>
    ensures { Reads (folder_of (option_map (λ text. text.now) given.entry)) result }
{
    match given {
        Some(name) => Ok(copied(alloc, name.as_str())?),
        None => Err(WordsFault::Refused(Refusal::NoFolder)),
    }
}

/// A copy of the value, or None if none is given.
pub fn optional(alloc: Global, given: Option<&Text>) -> Result<Option<Text>, AllocError>
    ensures { IfOk result (λ value. value ≡ option_map (λ text. text.now) given.entry) }
{
    match given {
        Some(text) => Ok(Some(copied(alloc, text.as_str())?)),
        None => Ok(None),
    }
}

/// A copy of the page's name; `NoOutput` if none is given.
pub fn page(alloc: Global, given: Option<&Text>) -> Result<Text, WordsFault>
    ensures { Reads (page_of (option_map (λ text. text.now) given.entry)) result }
{
    match given {
        Some(name) => Ok(copied(alloc, name.as_str())?),
        None => Err(WordsFault::Refused(Refusal::NoOutput)),
    }
}

/// Where the mesh goes: to standard output if the name is `-`. `NoOutput` if none is given.
pub fn output(alloc: Global, given: Option<&Text>) -> Result<Destination, WordsFault>
    ensures { Reads (output_of (option_map (λ text. text.now) given.entry)) result }
{
    let Some(name) = given else {
        return Err(WordsFault::Refused(Refusal::NoOutput));
    };
    if is_stream(name.as_str()) {
        return Ok(Destination::StandardOutput);
    }
    Ok(Destination::File(copied(alloc, name.as_str())?))
}

/// Whether the name ends so, in any case.
pub fn ends_in(ending: &[u8], name: &[u8]) -> bool
    ensures { result ≡ ends_in ending.now name.now }
{
    let end = name.split_at(name.len().saturating_sub(ending.len())).1;
    end.eq_ignore_ascii_case(ending)
}

// The format that the ending of the output's name shows, in any case. `OutputEnding` if the ending
// is none of `.stl`, `.glb`, `.obj`, `.ply` and `.off`.
fn format_of(name: &str) -> Result<OutputFormat, Refusal>
    ensures { result ≡ format_of name.now }
{
    let name = name.as_bytes();
    if ends_in(b".stl", name) {
        Ok(OutputFormat::Stl)
    } else if ends_in(b".glb", name) {
        Ok(OutputFormat::Glb)
    } else if ends_in(b".obj", name) {
        Ok(OutputFormat::Obj)
    } else if ends_in(b".ply", name) {
        Ok(OutputFormat::Ply)
    } else if ends_in(b".off", name) {
        Ok(OutputFormat::Off)
    } else {
        Err(Refusal::OutputEnding)
    }
}

// Whether this is the name, in any case.
fn is_named(wanted: &[u8], name: &[u8]) -> bool
    ensures { result ≡ str_eq_ignore_ascii_case name.now wanted.now }
{
    name.eq_ignore_ascii_case(wanted)
}

// The format of this name, in any case. `UnknownFormat` if there is none.
fn format_named(name: &str) -> Result<OutputFormat, Refusal>
    ensures { result ≡ format_named name.now }
{
    let name = name.as_bytes();
    if is_named(b"stl", name) {
        Ok(OutputFormat::Stl)
    } else if is_named(b"glb", name) {
        Ok(OutputFormat::Glb)
    } else if is_named(b"obj", name) {
        Ok(OutputFormat::Obj)
    } else if is_named(b"ply", name) {
        Ok(OutputFormat::Ply)
    } else if is_named(b"off", name) {
        Ok(OutputFormat::Off)
    } else {
        Err(Refusal::UnknownFormat)
    }
}

/// The format of a mesh that goes there, if this format is given. A file has the format that the
/// ending of its name shows, and takes no other word of it; for standard output it must be given.
/// Otherwise `OutputEnding`, `NeedlessFormat`, `NoFormat` or `UnknownFormat`.
pub fn format_at(output: &Destination, given: Option<&Text>) -> Result<OutputFormat, Refusal>
    ensures { result ≡ format_at output.now (option_map (λ text. text.now) given.entry) }
{
    match (output, given) {
        (Destination::File(name), None) => format_of(name.as_str()),
        (Destination::File(_), Some(_)) => Err(Refusal::NeedlessFormat),
        (Destination::StandardOutput, None) => Err(Refusal::NoFormat),
        (Destination::StandardOutput, Some(name)) => format_named(name.as_str()),
    }
}

/// The step that is asked for: `nice` if none is given. `NotAStep` if the value is neither `nice`
/// nor `finest` nor a decimal above 0.
pub fn step(alloc: Global, given: Option<&Text>) -> Result<WantedStep, WordsFault>
    ensures value { Reads (step_of (option_map (λ text. text.now) given.entry)) result }
    ensures above { IfOk result IsValidStep }
{
    let Some(text) = given else {
        return Ok(WantedStep::Nice);
    };
    let text = text.as_str();
    if text == "nice" {
        return Ok(WantedStep::Nice);
    }
    if text == "finest" {
        return Ok(WantedStep::Finest);
    }
    if is_above_zero(text) {
        return Ok(WantedStep::Decimal(copied(alloc, text)?));
    }
    Err(WordsFault::Refused(Refusal::NotAStep))
}

/// The number of workers, from 1 to 64: 4 if none is given. `Workers` for other values.
pub fn workers(given: Option<&Text>) -> Result<u32, Refusal>
    ensures value { result ≡ workers_of (option_map (λ text. text.now) given.entry) }
    ensures range { IfOk result (λ n. IsInRange 1 64 n) }
{
    let Some(text) = given else {
        return Ok(4);
    };
    match number_below(65, text.as_str().as_bytes()) {
        Some(0) => Err(Refusal::Workers),
        Some(number) => Ok(number),
        None => Err(Refusal::Workers),
    }
}

/// The number of decimal places, from 0 to 17; None if it isn't given. `Digits` for other values.
pub fn digits(given: Option<&Text>) -> Result<Option<u32>, Refusal>
    ensures value { result ≡ digits_of (option_map (λ text. text.now) given.entry) }
    ensures range { IfOk result (λ digits. IfSome digits (λ n. n ≤ 17)) }
{
    let Some(text) = given else {
        return Ok(None);
    };
    match number_below(18, text.as_str().as_bytes()) {
        Some(number) => Ok(Some(number)),
        None => Err(Refusal::Digits),
    }
}
