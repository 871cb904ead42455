// Reading the words. In contracts, `rows_of (found_of matches)` is clap's model of what it found:
// one row for each argument, with its name and its values. specs/WordsCommand.antt explains these
// and the other words of clap.
ghost use Rattle.std.specs.Prelude.{◌≡◌, ◌≢◌, IfOk, true, codes, map, option_and_then, string_bytes};
ghost use Rattle.clap.specs.Walk.{first_of, rows_of};
ghost use Rattle.clap.specs.Matches.{found_of};
ghost use Rattle.clap.specs.Simple.{app_of};
ghost use Rattle.clap.specs.Values.{kind_of};
ghost use Rattle.clap.specs.Faults.{is_simple_and_free};
ghost use Rattle.ember_words.specs.Limits.{height_of, point_of};
ghost use Rattle.ember_words.specs.Within.{IsWithinLimits, NamesFiles};
ghost use Rattle.ember_words.specs.Canonical.{IsCanonical, CommandLine, command_of_line, words_of};
ghost use Rattle.ember_words.specs.WordsCommand.{app_for, command_of_rows};
ghost use Rattle.ember_words.specs.WordsCommand.{workers_in, places_in, Reads, Finds, taken_by, faces_command_of, at_command_of, bool_command_of, demo_command_of, voxels_command_of, pairs_command_of, slice_command_of, command_of};

use crate::arguments::clap_command;
use crate::command::{Command, WordsFault};
use crate::limits::{height, is_set, point};
use crate::values::{file_names, first, number_value, optional_value, text_value};
use crate::verb::Verb;
use clap::error::ErrorKind;
use clap::{ArgMatches, Error};
use ember_model::Spot;
use std::alloc::Global;

// Out-of-memory if clap ran out of it, otherwise that the words are refused.
fn words_fault(error: &Error) -> WordsFault
    ensures memory { kind_of error.now ≡ ErrorKind.OutOfMemory → result ≡ WordsFault.OutOfMemory }
    ensures words { result ≡ WordsFault.Words → kind_of error.now ≢ ErrorKind.OutOfMemory }
{
    match error.kind() {
        ErrorKind::OutOfMemory => WordsFault::OutOfMemory,
        _ => WordsFault::Words,
    }
}

// What clap finds in the words. It takes the first one for the program's name, whatever it is: here
// the command's name is in that place, and clap reads the words after it.
fn find_matches<'a>(
    command: clap::Command<'a>,
    words: &'a [String],
) -> Result<ArgMatches<'a>, WordsFault>
    requires simple { is_simple_and_free (app_of command) ≡ true }
    ensures { Finds (app_of command.entry) (map string_bytes words.entry.now) result }
{
    match command.try_get_matches_from(words) {
        Ok(matches) => Ok(matches),
        Err(error) => Err(words_fault(&error)),
    }
}

fn faces_command(alloc: Global, matches: &ArgMatches<'_>) -> Result<Command, WordsFault>
    ensures { Reads (faces_command_of (rows_of (found_of matches.now))) result }
{
    let places = places_value(matches)?;
    let file = text_value(alloc, matches, "file")?;
    Ok(Command::Faces { places, file })
}

// The level of `slice`.
fn height_value(matches: &ArgMatches<'_>) -> Result<i32, WordsFault>
    ensures { Reads (option_and_then height_of (first_of (codes "at") (rows_of (found_of matches.now)))) result }
{
    let Some(text) = first(matches, "at") else {
        return Err(WordsFault::Words);
    };
    height(text).ok_or(WordsFault::Words)
}

fn point_value(matches: &ArgMatches<'_>) -> Result<Spot, WordsFault>
    ensures { Reads (option_and_then point_of (first_of (codes "point") (rows_of (found_of matches.now)))) result }
{
    let Some(text) = first(matches, "point") else {
        return Err(WordsFault::Words);
    };
    point(text).ok_or(WordsFault::Words)
}

fn workers_value(matches: &ArgMatches<'_>) -> Result<u32, WordsFault>
    ensures { Reads (workers_in (rows_of (found_of matches.now))) result }
{
    number_value(matches, "workers", 1, 64)
}

fn places_value(matches: &ArgMatches<'_>) -> Result<u32, WordsFault>
    ensures { Reads (places_in (rows_of (found_of matches.now))) result }
{
    number_value(matches, "places", 0, 3)
}

fn at_command(alloc: Global, matches: &ArgMatches<'_>) -> Result<Command, WordsFault>
    ensures { Reads (at_command_of (rows_of (found_of matches.now))) result }
{
    let point = point_value(matches)?;
    let expr = optional_value(alloc, matches, "expr")?;
    let places = places_value(matches)?;
    let files = file_names(alloc, matches)?;
    Ok(Command::At {
        point,
        expr,
        places,
        files,
    })
}

fn bool_command(alloc: Global, matches: &ArgMatches<'_>) -> Result<Command, WordsFault>
    ensures { Reads (bool_command_of (rows_of (found_of matches.now))) result }
{
    let expr = text_value(alloc, matches, "expr")?;
    let workers = workers_value(matches)?;
    let places = places_value(matches)?;
    let report = is_set(first(matches, "report"));
    let files = file_names(alloc, matches)?;
    Ok(Command::Boole {
        expr,
        workers,
        places,
        report,
        files,
    })
}

fn demo_command(matches: &ArgMatches<'_>) -> Result<Command, WordsFault>
    ensures { Reads (demo_command_of (rows_of (found_of matches.now))) result }
{
    let boxes = number_value(matches, "boxes", 1, 20000)?;
    let workers = workers_value(matches)?;
    Ok(Command::Demo { boxes, workers })
}

fn voxels_command(alloc: Global, matches: &ArgMatches<'_>) -> Result<Command, WordsFault>
    ensures { Reads (voxels_command_of (rows_of (found_of matches.now))) result }
{
    let expr = text_value(alloc, matches, "expr")?;
    let size = number_value(matches, "size", 4, 12)?;
    let workers = workers_value(matches)?;
    let places = places_value(matches)?;
    let files = file_names(alloc, matches)?;
    Ok(Command::Voxels {
        expr,
        size,
        workers,
        places,
        files,
    })
}

fn pairs_command(alloc: Global, matches: &ArgMatches<'_>) -> Result<Command, WordsFault>
    ensures { Reads (pairs_command_of (rows_of (found_of matches.now))) result }
{
    let workers = workers_value(matches)?;
    let places = places_value(matches)?;
    let files = file_names(alloc, matches)?;
    Ok(Command::Pairs {
        workers,
        places,
        files,
    })
}

fn slice_command(alloc: Global, matches: &ArgMatches<'_>) -> Result<Command, WordsFault>
    ensures { Reads (slice_command_of (rows_of (found_of matches.now))) result }
{
    let at = height_value(matches)?;
    let file = text_value(alloc, matches, "file")?;
    Ok(Command::Slice { at, file })
}

// The command of this name, by the values that clap found.
fn command_of_matches(
    alloc: Global,
    verb: Verb,
    matches: &ArgMatches<'_>,
) -> Result<Command, WordsFault>
    ensures { Reads (command_of_rows verb (rows_of (found_of matches.now))) result }
{
    match verb {
        Verb::Faces => faces_command(alloc, matches),
        Verb::At => at_command(alloc, matches),
        Verb::Boole => bool_command(alloc, matches),
        Verb::Demo => demo_command(matches),
        Verb::Voxels => voxels_command(alloc, matches),
        Verb::Pairs => pairs_command(alloc, matches),
        Verb::Slice => slice_command(alloc, matches),
    }
}

// What clap finds in the words for the command of this name.
fn matches_for<'a>(
    alloc: Global,
    verb: Verb,
    words: &'a [String],
) -> Result<ArgMatches<'a>, WordsFault>
    ensures { Finds (app_for verb) (map string_bytes words.entry.now) result }
{
    find_matches(clap_command(alloc, verb)?, words)
}

#[tactic(auto, using(crate::proofs::Refusals::find_refusal_is_fault))]
fn read_for<'a>(alloc: Global, verb: Verb, words: &'a [String]) -> Result<Command, WordsFault>
    ensures { Reads (taken_by verb (map string_bytes words.entry.now)) result }
{
    let matches = matches_for(alloc, verb, words)?;
    command_of_matches(alloc, verb, &matches)
}

// The command that the first word names.
fn read_command(alloc: Global, words: &[String]) -> Result<Command, WordsFault>
    ensures { Reads (command_of (map string_bytes words.now)) result }
{
    let Some(name) = words.first() else {
        return Err(WordsFault::Words);
    };
    let Some(verb) = Verb::named(name) else {
        return Err(WordsFault::Words);
    };
    read_for(alloc, verb, words)
}

/// The command that the words after the program's name give.
///
/// The first word names the command, by its bytes. Clap reads the words after it, and the values
/// that it finds are within the limits. The words are refused exactly if the first word is missing
/// or names no command, if clap refuses them, or if a value is past its limits. A command that may
/// name several files names at least one. Words in the canonical spelling are read as the command
/// of their values, and refused only if one of these is past its limits.
#[tactic(auto, using(crate::proofs::CanonicalWords::canonical_reads, crate::proofs::Limited::read_limits, crate::proofs::NamedFiles::read_files))]
pub fn read_words(alloc: Global, words: &[String]) -> Result<Command, WordsFault>
    ensures command { Reads (command_of (map string_bytes words.now)) result }
    ensures limits { IfOk result IsWithinLimits }
    ensures files { IfOk result NamesFiles }
    ensures canonical { (line : CommandLine) → IsCanonical line → map string_bytes words.now ≡ words_of line →
        Reads (command_of_line line) result }
{
    read_command(alloc, words)
}
