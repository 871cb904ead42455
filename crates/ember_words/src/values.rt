// The values that clap found, within their limits.
ghost use Rattle.std.specs.Prelude.{◌≡◌, MatchResult, map, not, option_map};
ghost use Rattle.std.specs.List.{list_all};
ghost use Rattle.clap.specs.Walk.{all_of, first_of, is_empty, rows_of};
ghost use Rattle.clap.specs.Matches.{found_of};
ghost use Rattle.ember_words.specs.Limits.{are_names, optional_of};
ghost use Rattle.ember_words.specs.WordsCommand.{Reads, number_in, text_in, files_in};

use crate::command::WordsFault;
use crate::limits::number;
use crate::text::{Text, Texts};
use clap::ArgMatches;
use std::alloc::Global;

/// The first value of an argument. None if it has none.
#[tactic(auto, using(crate::proofs::ClapValues::first_value_rows))]
pub fn first<'a>(matches: &ArgMatches<'a>, id: &str) -> Option<&'a str>
    ensures { option_map (λ text. text.now) result ≡ first_of id.now (rows_of (found_of matches.now)) }
{
    matches.get_str(id)
}

/// All values of an argument, in order. None if the argument wasn't given.
#[tactic(auto, using(crate::proofs::ClapValues::raw_values_rows))]
pub fn all<'m, 'a>(matches: &'m ArgMatches<'a>, id: &str) -> Option<&'m [&'a str]>
    ensures { option_map (λ texts. map (λ text. text.now) texts.now) result ≡
        all_of id.now (rows_of (found_of matches.now)) }
{
    matches.get_strs(id)
}

/// The argument's first value as a number from `least` to `most`. Returns `WordsFault::Words` if
/// there is no value, or it isn't such a number.
pub fn number_value(
    matches: &ArgMatches<'_>,
    id: &str,
    least: u32,
    most: u32,
) -> Result<u32, WordsFault>
    ensures { Reads (number_in least most id.now (rows_of (found_of matches.now))) result }
{
    let Some(text) = first(matches, id) else {
        return Err(WordsFault::Words);
    };
    number(text, least, most).ok_or(WordsFault::Words)
}

fn copied(alloc: Global, text: &str) -> Result<Text, WordsFault>
    ensures { MatchResult result (λ copy. copy ≡ text.now) (λ fault. fault ≡ WordsFault.OutOfMemory) }
{
    Ok(Text::of(String::from_str(alloc, text)?))
}

/// A copy of the argument's first value. Returns `WordsFault::Words` if there is no value, or it is
/// empty; the only other error is out-of-memory.
pub fn text_value(alloc: Global, matches: &ArgMatches<'_>, id: &str) -> Result<Text, WordsFault>
    ensures { Reads (text_in id.now (rows_of (found_of matches.now))) result }
{
    match first(matches, id) {
        Some(text) if !text.is_empty() => copied(alloc, text),
        _ => Err(WordsFault::Words),
    }
}

/// A copy of the option's first value, or none if the option wasn't given. Returns
/// `WordsFault::Words` if the value is empty; the only other error is out-of-memory.
pub fn optional_value(
    alloc: Global,
    matches: &ArgMatches<'_>,
    id: &str,
) -> Result<Option<Text>, WordsFault>
    ensures { Reads (optional_of (first_of id.now (rows_of (found_of matches.now)))) result }
{
    match first(matches, id) {
        None => Ok(None),
        Some(text) if text.is_empty() => Err(WordsFault::Words),
        Some(text) => Ok(Some(copied(alloc, text)?)),
    }
}

// Whether no name is empty.
fn have_bytes(names: &[&str]) -> bool
    ensures { result ≡ list_all (λ name. not (is_empty name.now)) names.now }
{
    names.iter().all(|name| !name.is_empty())
}

// Whether there are at most 64 names, each with a byte.
#[tactic(auto, using(crate::proofs::ClapValues::names_held))]
fn are_file_names(names: &[&str]) -> bool
    ensures { result ≡ are_names (map (λ name. name.now) names.now) }
{
    names.len() <= 64 && have_bytes(names)
}

fn all_copied(alloc: Global, texts: &[&str]) -> Result<Texts, WordsFault>
    ensures { MatchResult result (λ copies. copies ≡ map (λ text. text.now) texts.now) (λ fault. fault ≡
        WordsFault.OutOfMemory) }
{
    let mut copies = Vec::with_capacity(alloc, texts.len())?;
    for text in texts {
        copies.push(copied(alloc, text)?)?;
    }
    Ok(Texts::of(copies))
}

/// Copies of the file names. Returns `WordsFault::Words` if none were given, one is empty or there
/// are more than 64; the only other error is out-of-memory.
pub fn file_names(alloc: Global, matches: &ArgMatches<'_>) -> Result<Texts, WordsFault>
    ensures { Reads (files_in (rows_of (found_of matches.now))) result }
{
    let Some(names) = all(matches, "files") else {
        return Err(WordsFault::Words);
    };
    if !are_file_names(names) {
        return Err(WordsFault::Words);
    }
    all_copied(alloc, names)
}
