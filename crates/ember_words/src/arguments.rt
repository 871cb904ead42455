// One clap parser for each command of ember.
ghost use Rattle.std.specs.Prelude.{◌≡◌, IfOk, false};
ghost use Rattle.clap.specs.Walk.{rule_of};
ghost use Rattle.clap.specs.Simple.{app_of, with_rule};
ghost use Rattle.ember_words.specs.Commands.{option, required_option, option_with_default, flag, one_word, several_words, workers, places};
ghost use Rattle.ember_words.specs.WordsCommand.{app_for};
ghost use Rattle.ember_words.specs.Commands.{faces_app, at_app, bool_app, demo_app, voxels_app, pairs_app, slice_app};

use crate::verb::Verb;
use clap::{Arg, ArgAction, Command};
use std::alloc::{AllocError, Global};

// `--name`, with one value of text.
fn option<'a>(alloc: Global, name: &'a str) -> Arg<'a>
    ensures rule { rule_of result ≡ option name.entry.now }
    ensures local { result.global ≡ false }
{
    Arg::new(alloc, name).long(name)
}

// `--name`, with one value of text, which must be given.
fn required_option<'a>(alloc: Global, name: &'a str) -> Arg<'a>
    ensures rule { rule_of result ≡ required_option name.entry.now }
    ensures local { result.global ≡ false }
{
    Arg::new(alloc, name).long(name).required(true)
}

// `--name`, with one value of text, and this one if it isn't given.
fn option_with_default<'a>(alloc: Global, name: &'a str, value: &'a str) -> Arg<'a>
    ensures rule { rule_of result ≡ option_with_default name.entry.now value.entry.now }
    ensures local { result.global ≡ false }
{
    Arg::new(alloc, name).long(name).default_value(value)
}

// `--name`, without a value.
fn flag<'a>(alloc: Global, name: &'a str) -> Arg<'a>
    ensures rule { rule_of result ≡ flag name.entry.now }
    ensures local { result.global ≡ false }
{
    Arg::new(alloc, name).long(name).action(ArgAction::SetTrue)
}

// One word that isn't an option.
fn one_word<'a>(alloc: Global, name: &'a str) -> Arg<'a>
    ensures rule { rule_of result ≡ one_word name.entry.now }
    ensures local { result.global ≡ false }
{
    Arg::new(alloc, name).required(true)
}

// One or more words that aren't options.
fn several_words<'a>(alloc: Global, name: &'a str) -> Arg<'a>
    ensures rule { rule_of result ≡ several_words name.entry.now }
    ensures local { result.global ≡ false }
{
    Arg::new(alloc, name).required(true).num_args(1..)
}

fn with<'a>(command: Command<'a>, arg: Arg<'a>) -> Result<Command<'a>, AllocError>
    requires { arg.global ≡ false }
    ensures { IfOk result (λ c. app_of c ≡ with_rule (app_of command.entry) (rule_of arg.entry)) }
{
    command.arg(arg)
}

// The options `--workers` and `--places`.
fn with_workers_and_places<'a>(
    alloc: Global,
    command: Command<'a>,
) -> Result<Command<'a>, AllocError>
    ensures { IfOk result (λ c. app_of c ≡ with_rule (with_rule (app_of command.entry) workers) places) }
{
    let command = with(command, option_with_default(alloc, "workers", "1"))?;
    with(command, option_with_default(alloc, "places", "0"))
}

fn faces_app<'a>(alloc: Global) -> Result<Command<'a>, AllocError>
    ensures { IfOk result (λ c. app_of c ≡ faces_app) }
{
    let command = Command::new(alloc, "faces");
    let command = with(command, option_with_default(alloc, "places", "0"))?;
    with(command, one_word(alloc, "file"))
}

fn at_app<'a>(alloc: Global) -> Result<Command<'a>, AllocError>
    ensures { IfOk result (λ c. app_of c ≡ at_app) }
{
    let command = Command::new(alloc, "at");
    let command = with(command, required_option(alloc, "point"))?;
    let command = with(command, option(alloc, "expr"))?;
    let command = with(command, option_with_default(alloc, "places", "0"))?;
    with(command, several_words(alloc, "files"))
}

fn bool_app<'a>(alloc: Global) -> Result<Command<'a>, AllocError>
    ensures { IfOk result (λ c. app_of c ≡ bool_app) }
{
    let command = Command::new(alloc, "bool");
    let command = with(command, required_option(alloc, "expr"))?;
    let command = with_workers_and_places(alloc, command)?;
    let command = with(command, flag(alloc, "report"))?;
    with(command, several_words(alloc, "files"))
}

fn demo_app<'a>(alloc: Global) -> Result<Command<'a>, AllocError>
    ensures { IfOk result (λ c. app_of c ≡ demo_app) }
{
    let command = Command::new(alloc, "demo");
    let command = with(command, option_with_default(alloc, "workers", "1"))?;
    with(command, one_word(alloc, "boxes"))
}

fn voxels_app<'a>(alloc: Global) -> Result<Command<'a>, AllocError>
    ensures { IfOk result (λ c. app_of c ≡ voxels_app) }
{
    let command = Command::new(alloc, "voxels");
    let command = with(command, required_option(alloc, "expr"))?;
    let command = with(command, required_option(alloc, "size"))?;
    let command = with_workers_and_places(alloc, command)?;
    with(command, several_words(alloc, "files"))
}

fn pairs_app<'a>(alloc: Global) -> Result<Command<'a>, AllocError>
    ensures { IfOk result (λ c. app_of c ≡ pairs_app) }
{
    let command = Command::new(alloc, "pairs");
    let command = with_workers_and_places(alloc, command)?;
    with(command, several_words(alloc, "files"))
}

fn slice_app<'a>(alloc: Global) -> Result<Command<'a>, AllocError>
    ensures { IfOk result (λ c. app_of c ≡ slice_app) }
{
    let command = Command::new(alloc, "slice");
    let command = with(command, required_option(alloc, "at"))?;
    with(command, one_word(alloc, "file"))
}

/// The clap parser for the words of this command.
pub fn clap_command<'a>(alloc: Global, verb: Verb) -> Result<Command<'a>, AllocError>
    ensures { IfOk result (λ c. app_of c ≡ app_for verb) }
{
    match verb {
        Verb::Faces => faces_app(alloc),
        Verb::At => at_app(alloc),
        Verb::Boole => bool_app(alloc),
        Verb::Demo => demo_app(alloc),
        Verb::Voxels => voxels_app(alloc),
        Verb::Pairs => pairs_app(alloc),
        Verb::Slice => slice_app(alloc),
    }
}
