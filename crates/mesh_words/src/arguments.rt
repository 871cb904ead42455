// What the words after a command's name mean.
ghost use Rattle.std.specs.Prelude.{◌≡◌, IfOk, None, map, option_map, string_bytes};
ghost use Rattle.std.specs.Result.{result_map_both};
ghost use Rattle.std.specs.List.{list_any};
ghost use Rattle.mesh_words.specs.Names.{setting_of};
ghost use Rattle.mesh_words.specs.Arguments.{attached_in, said_by, said_alone, said, is_help, is_json, words_ask_json, arguments_from, value_for, value_in, values_in, names_in, inputs_in, is_quiet, asks_help};
ghost use Rattle.mesh_words.specs.Commands.{Reads};

use crate::faults::{Refusal, WordsFault};
use crate::names::Setting;
use crate::streams::is_option_word;
use crate::texts::{copied, parts};
use ember_words::{Text, Texts};
use std::alloc::{AllocError, Global};

/// What one or two words mean.
#[derive(Drop)]
pub enum Argument {
    /// The name of a mesh file.
    File(Text),
    /// An option and its value.
    Value(Setting, Text),
    Quiet,
    Json,
    Help,
}

/// What one word means.
#[derive(Drop)]
pub enum WordMeaning {
    Whole(Argument),
    /// An option, whose value is the next word.
    Waiting(Setting),
    /// It begins with a hyphen, and is neither an option nor `-` itself.
    Unknown,
}

// An option with its value after an equals sign.
fn attached(word: &str) -> Option<(Setting, &str)>
    ensures { option_map (λ a. (a.0, a.1.now)) result ≡ attached_in word.now }
{
    let (name, value) = parts(word)?;
    let setting = Setting::named(name)?;
    Some((setting, value))
}

/// Whether the word asks for help: `--help` or `-h`.
pub fn is_help(word: &str) -> bool
    ensures { result ≡ is_help word.now }
{
    word == "--help" || word == "-h"
}

/// Whether the word asks for JSON.
pub fn is_json(word: &str) -> bool
    ensures { result ≡ is_json word.now }
{
    word == "--json"
}

// A word that is no option without a value.
fn said_by(alloc: Global, word: &str) -> Result<WordMeaning, AllocError>
    ensures { IfOk result (λ s. s ≡ said_by word.now (setting_of word.now) (attached_in word.now)) }
{
    if let Some(setting) = Setting::named(word) {
        return Ok(WordMeaning::Waiting(setting));
    }
    if let Some((setting, value)) = attached(word) {
        return Ok(WordMeaning::Whole(Argument::Value(setting, copied(alloc, value)?)));
    }
    if is_option_word(word) {
        return Ok(WordMeaning::Unknown);
    }
    Ok(WordMeaning::Whole(Argument::File(copied(alloc, word)?)))
}

fn said_alone(alloc: Global, word: &str) -> Result<WordMeaning, AllocError>
    ensures { IfOk result (λ s. s ≡ said_alone word.now) }
{
    if word == "--quiet" {
        return Ok(WordMeaning::Whole(Argument::Quiet));
    }
    if is_json(word) {
        return Ok(WordMeaning::Whole(Argument::Json));
    }
    if is_help(word) {
        return Ok(WordMeaning::Whole(Argument::Help));
    }
    said_by(alloc, word)
}

// What a word means after an option that wants its value, if there is such an option.
fn said(alloc: Global, waits: Option<Setting>, word: &str) -> Result<WordMeaning, AllocError>
    ensures { IfOk result (λ s. s ≡ said waits word.now) }
{
    match waits {
        Some(setting) => Ok(WordMeaning::Whole(Argument::Value(setting, copied(alloc, word)?))),
        None => said_alone(alloc, word),
    }
}

/// What the words after the command's name mean, in their order. Refuses the first word that begins
/// with a hyphen and is no option, by its number from 1, and an option at the end without a value.
#[tactic(auto, using(crate::proofs::WordArguments::argument_more, crate::proofs::WordArguments::option_more, crate::proofs::WordArguments::unknown_more))]
pub fn arguments_of(alloc: Global, words: &[String]) -> Result<Vec<Argument>, WordsFault>
    ensures { Reads (arguments_from 1 None (map string_bytes words.now))
        (result_map_both (λ arguments. arguments.items) (λ fault. fault) result) }
{
    let mut arguments = Vec::new(alloc);
    let mut waits = None;
    for (number, word) in words.iter().enumerate() {
        match said(alloc, waits, word)? {
            WordMeaning::Whole(argument) => {
                arguments.push(argument)?;
                waits = None;
            }
            WordMeaning::Waiting(setting) => waits = Some(setting),
            WordMeaning::Unknown => return Err(WordsFault::Refused(Refusal::UnknownOption(
                number + 1,
            ))),
        }
    }
    match waits {
        None => Ok(arguments),
        Some(_) => Err(WordsFault::Refused(Refusal::NoValue)),
    }
}

impl Argument {
    /// The value of the option, if this is the option.
    pub fn value_for(&self, setting: Setting) -> Option<&Text>
        ensures { option_map (λ text. text.now) result ≡ value_for setting self.now }
    {
        match self {
            Argument::Value(given, text) => {
                if given.rank() == setting.rank() {
                    Some(text)
                } else {
                    None
                }
            }
            _ => None,
        }
    }

    // Whether the argument is `--quiet`.
    fn is_quiet(&self) -> bool
        ensures { result ≡ is_quiet self.now }
    {
        match self {
            Argument::Quiet => true,
            _ => false,
        }
    }

    // Whether the argument asks for help.
    fn asks_help(&self) -> bool
        ensures { result ≡ asks_help self.now }
    {
        match self {
            Argument::Help => true,
            _ => false,
        }
    }
}

/// The value of the option: the last one if there are several, None if there isn't any.
#[tactic(auto, using(crate::proofs::WordArguments::later_value))]
pub fn value_in(arguments: &[Argument], setting: Setting) -> Option<&Text>
    ensures { option_map (λ text. text.now) result ≡ value_in setting arguments.now }
{
    let mut value = None;
    for argument in arguments {
        if let Some(text) = argument.value_for(setting) {
            value = Some(text);
        }
    }
    value
}

/// Copies of all values of the option, in their order.
pub fn values_in(
    alloc: Global,
    arguments: &[Argument],
    setting: Setting,
) -> Result<Texts, AllocError>
    ensures { IfOk result (λ values. values ≡ values_in setting arguments.now) }
{
    let mut values = Vec::new(alloc);
    for argument in arguments {
        if let Some(text) = argument.value_for(setting) {
            values.push(copied(alloc, text.as_str())?)?;
        }
    }
    Ok(Texts::of(values))
}

/// Copies of the file names among the arguments, in their order.
pub fn names_in(alloc: Global, arguments: &[Argument]) -> Result<Texts, AllocError>
    ensures { IfOk result (λ names. names ≡ names_in arguments.now) }
{
    let mut names = Vec::new(alloc);
    for argument in arguments {
        if let Argument::File(name) = argument {
            names.push(copied(alloc, name.as_str())?)?;
        }
    }
    Ok(Texts::of(names))
}

/// Copies of the names of what the command reads: the files, and the grid of a document.
pub fn inputs_in(alloc: Global, arguments: &[Argument]) -> Result<Texts, AllocError>
    ensures { IfOk result (λ names. names ≡ inputs_in arguments.now) }
{
    let mut names = names_in(alloc, arguments)?.into_vec();
    if let Some(scene) = value_in(arguments, Setting::Scene) {
        names.push(copied(alloc, scene.as_str())?)?;
    }
    Ok(Texts::of(names))
}

/// Whether one of the arguments is `--quiet`.
pub fn are_quiet(arguments: &[Argument]) -> bool
    ensures { result ≡ list_any is_quiet arguments.now }
{
    arguments.iter().any(|argument| argument.is_quiet())
}

/// Whether one of the words is `--json`, wherever it stands: also as a value, and also if the words are
/// refused.
pub fn words_ask_json(words: &[String]) -> bool
    ensures { result ≡ words_ask_json (map string_bytes words.now) }
{
    for word in words {
        if is_json(word) {
            return true;
        }
    }
    false
}

/// Whether one of the arguments asks for help.
pub fn ask_help(arguments: &[Argument]) -> bool
    ensures { result ≡ list_any asks_help arguments.now }
{
    arguments.iter().any(|argument| argument.asks_help())
}
