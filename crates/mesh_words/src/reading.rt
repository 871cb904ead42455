// Reading the words.
ghost use Rattle.std.specs.Prelude.{◌≡◌, ◌∷◌, IfOk, List, None, Ok, codes, map, string_bytes};
ghost use Rattle.mesh_words.specs.Commands.{Reads, request_of, command_with, snap_command, export_command, info_of, view_command, command_by, command_of, IsWithinLimits, HasLimits};
ghost use Rattle.mesh_words.specs.Arguments.{arguments_from};
ghost use Rattle.mesh_words.specs.Spelling.{name_of, spelling_of, AreSpelled};

use crate::arguments::{Argument, are_quiet, arguments_of, ask_help, names_in, value_in};
use crate::command::{Command, Request};
use crate::exports::export_of;
use crate::faults::{Refusal, WordsFault};
use crate::names::{Operation, Setting, Verb};
use crate::placings::{places, turns};
use crate::plain::{are_for_help, first_option, plain_names};
use crate::snaps::snap_of;
use crate::targets::boolean_fault;
use crate::values::{counted, digits, expression, format_at, optional, output, step, workers};
use crate::views::view_of;
use std::alloc::Global;

// The Boolean of these arguments.
fn request_of(
    alloc: Global,
    operation: Operation,
    arguments: &[Argument],
) -> Result<Request, WordsFault>
    ensures value { Reads (request_of operation arguments.now) result }
    ensures limits { IfOk result IsWithinLimits }
{
    let files = counted(names_in(alloc, arguments)?)?;
    if let Some(why) = boolean_fault(alloc, arguments)? {
        return Err(WordsFault::Refused(why));
    }
    let given = value_in(arguments, Setting::Expression);
    let expression = expression(alloc, operation, files.items().len(), given)?;
    let output = output(alloc, value_in(arguments, Setting::Output))?;
    let format = format_at(&output, value_in(arguments, Setting::Format))?;
    let step = step(alloc, value_in(arguments, Setting::Step))?;
    let workers = workers(value_in(arguments, Setting::Workers))?;
    let digits = digits(value_in(arguments, Setting::Digits))?;
    let places = places(alloc, files.items().len(), arguments)?;
    let turns = turns(alloc, files.items().len(), arguments)?;
    Ok(Request {
        expression,
        output,
        format,
        step,
        workers,
        quiet: are_quiet(arguments),
        digits,
        files,
        view: optional(alloc, value_in(arguments, Setting::Page))?,
        keep: optional(alloc, value_in(arguments, Setting::Keep))?,
        places,
        turns,
    })
}

// The command of an operation and the words after its name.
fn command_with(
    alloc: Global,
    operation: Operation,
    words: &[String],
) -> Result<Command, WordsFault>
    ensures value { Reads (command_with operation (arguments_from 1 None (map string_bytes words.now))) result }
    ensures limits { IfOk result HasLimits }
{
    let arguments = arguments_of(alloc, words)?;
    if ask_help(&arguments) {
        return Ok(Command::Help);
    }
    Ok(Command::Boole(request_of(alloc, operation, &arguments)?))
}

// The command `snap` with the words after its name.
fn snap_command(alloc: Global, words: &[String]) -> Result<Command, WordsFault>
    ensures value { Reads (snap_command (arguments_from 1 None (map string_bytes words.now))) result }
    ensures limits { IfOk result HasLimits }
{
    let arguments = arguments_of(alloc, words)?;
    if ask_help(&arguments) {
        return Ok(Command::Help);
    }
    Ok(Command::Snap(snap_of(alloc, &arguments)?))
}

// The command `export` with the words after its name.
fn export_command(alloc: Global, words: &[String]) -> Result<Command, WordsFault>
    ensures value { Reads (export_command (arguments_from 1 None (map string_bytes words.now))) result }
    ensures limits { IfOk result HasLimits }
{
    let arguments = arguments_of(alloc, words)?;
    if ask_help(&arguments) {
        return Ok(Command::Help);
    }
    Ok(Command::Export(export_of(alloc, &arguments)?))
}

// The command `info` with the words after its name.
fn info_of(alloc: Global, words: &[String]) -> Result<Command, WordsFault>
    ensures value { Reads (info_of (map string_bytes words.now)) result }
    ensures limits { IfOk result HasLimits }
{
    if let Some(number) = first_option(words) {
        return Err(WordsFault::Refused(Refusal::UnknownOption(number)));
    }
    if are_for_help(words) {
        return Ok(Command::Help);
    }
    Ok(Command::Info(counted(plain_names(alloc, words)?)?))
}

// The command `view` with the words after its name.
fn view_command(alloc: Global, words: &[String]) -> Result<Command, WordsFault>
    ensures value { Reads (view_command (arguments_from 1 None (map string_bytes words.now))) result }
    ensures limits { IfOk result HasLimits }
{
    let arguments = arguments_of(alloc, words)?;
    if ask_help(&arguments) {
        return Ok(Command::Help);
    }
    Ok(Command::View(view_of(alloc, &arguments)?))
}

// The command of this verb and the words after its name.
fn command_by(alloc: Global, verb: Option<Verb>, words: &[String]) -> Result<Command, WordsFault>
    ensures value { Reads (command_by verb (map string_bytes words.now)) result }
    ensures limits { IfOk result HasLimits }
{
    match verb {
        Some(Verb::Compute(operation)) => command_with(alloc, operation, words),
        Some(Verb::Snap) => snap_command(alloc, words),
        Some(Verb::Export) => export_command(alloc, words),
        Some(Verb::Info) => info_of(alloc, words),
        Some(Verb::View) => view_command(alloc, words),
        Some(Verb::Help) => Ok(Command::Help),
        Some(Verb::Version) => Ok(Command::Version),
        None => Err(WordsFault::Refused(Refusal::UnknownCommand)),
    }
}

// The command that the first word names.
fn read(alloc: Global, words: &[String]) -> Result<Command, WordsFault>
    ensures command { Reads (command_of (map string_bytes words.now)) result }
    ensures limits { IfOk result HasLimits }
{
    match words.split_first() {
        Some((name, others)) => command_by(alloc, Verb::named(name), others),
        None => Err(WordsFault::Refused(Refusal::NoCommand)),
    }
}

/// The command that the words after the program's name give.
///
/// The first word names the command. Options and file names follow it in any order. An option's
/// value is the next word, whatever this is, or follows an equals sign, as in `--step=0.02`. A second
/// value of an option that names what is written (`-o`, `-d`, `--view`, `--keep`) is refused; of
/// several values of another option the last one counts, but for `--place` and `--turn`. Any other word that begins with a hyphen,
/// but for `-` itself, is refused.
///
/// A page has a name that ends in `.html` or `.htm`. No page, and no file that `snap` and `--keep`
/// write into their folder, may have the same path as a file that the command reads, or as the output
/// beside it.
///
/// A file whose name begins with `box:` or `cylinder:` is a shape, as
/// [`shape_of`](mesh_placing::shape_of) reads it.
///
/// `-` is a file name, of standard input, which can be read once; and `-o -` is standard output, for
/// which `--format` names the format. Of a file the ending of its name shows it.
///
/// A Boolean takes `--expr`, `-o`, `--format`, `--step`, `--workers`, `--digits`, `--view`,
/// `--keep`, `--place` and `--turn`; `snap` takes `-d` and `--step`; `export` takes `--scene`, `-o`, `--format`, `--digits`
/// and `--view`; `view` takes `-o`. These take `--quiet` too, which means nothing for `view`. Every
/// command takes `--json`, which `words_ask_json` finds wherever it stands. `info` has no other
/// option: its words are file names.
///
/// `help`, `--help` and `-h` ask for help, as the first word or after the name of a command.
/// `--version` is a first word alone. The words after these first words aren't read.
///
/// The first refusal counts: of the first word; of the words in their order; and then of the files,
/// of the first option that the command doesn't take, of a second name of what is written, of the
/// page, of inputs in the folder, of the expression, the missing or wrong output or missing folder,
/// the format, the step, the workers, the digits, the placings and the files turned inside out.
///
/// Arguments that are spelled as words, with each value in a word of its own and no hyphen at the
/// beginning of a file name but `-`, are read as these arguments.
pub fn read_words(alloc: Global, words: &[String]) -> Result<Command, WordsFault>
    ensures command { Reads (command_of (map string_bytes words.now)) result }
    ensures limits { IfOk result HasLimits }
    ensures spelled { (operation : Operation) (arguments : List Argument) → AreSpelled arguments →
        map string_bytes words.now ≡ name_of operation ∷ spelling_of arguments →
        Reads (command_with operation (Ok arguments)) result }
    ensures spelled_snap { (arguments : List Argument) → AreSpelled arguments →
        map string_bytes words.now ≡ codes "snap" ∷ spelling_of arguments → Reads (snap_command (Ok arguments)) result }
    ensures spelled_export { (arguments : List Argument) → AreSpelled arguments →
        map string_bytes words.now ≡ codes "export" ∷ spelling_of arguments →
        Reads (export_command (Ok arguments)) result }
    ensures spelled_view { (arguments : List Argument) → AreSpelled arguments →
        map string_bytes words.now ≡ codes "view" ∷ spelling_of arguments → Reads (view_command (Ok arguments)) result }
{
    read(alloc, words)
}
