// The values that words give to options, also if the words are refused for them.
ghost use Rattle.std.specs.Prelude.{◌≡◌, IfOk, None, [], get_or, map, string_bytes};
ghost use Rattle.mesh_words.specs.Arguments.{arguments_from, inputs_in, value_in};
ghost use Rattle.mesh_words.specs.Given.{or_empty, value_among, value_given, output_given, step_given, input_among, input_given};

use crate::arguments::{Argument, arguments_of, inputs_in, value_in};
use crate::faults::WordsFault;
use crate::names::Setting;
use crate::texts::copied;
use ember_words::Text;
use std::alloc::{AllocError, Global};

// The last value of the option among the arguments, empty if there is none.
fn value_or_empty(
    alloc: Global,
    arguments: &[Argument],
    setting: Setting,
) -> Result<Text, AllocError>
    ensures { IfOk result (λ text. text ≡ or_empty (value_in setting arguments.now)) }
{
    match value_in(arguments, setting) {
        Some(text) => copied(alloc, text.as_str()),
        None => copied(alloc, ""),
    }
}

// The last value that the words after the command's name give to the option.
fn value_after_name(alloc: Global, words: &[String], setting: Setting) -> Result<Text, AllocError>
    ensures { IfOk result (λ text. text ≡
        value_among setting (arguments_from 1 None (map string_bytes words.now))) }
{
    match arguments_of(alloc, words) {
        Ok(arguments) => value_or_empty(alloc, &arguments, setting),
        Err(WordsFault::Refused(_)) => copied(alloc, ""),
        Err(WordsFault::OutOfMemory) => Err(AllocError),
    }
}

/// The value that the words give the option: the last one if there are several, and an empty text
/// if there is none or if not all words were understood. It needn't be one that
/// [`read_words`](crate::read_words) accepts.
pub fn value_given(alloc: Global, words: &[String], setting: Setting) -> Result<Text, AllocError>
    ensures { IfOk result (λ text. text ≡ value_given setting (map string_bytes words.now)) }
{
    match words.split_first() {
        Some((_, others)) => value_after_name(alloc, others, setting),
        None => copied(alloc, ""),
    }
}

/// The same of `-o`.
pub fn output_given(alloc: Global, words: &[String]) -> Result<Text, AllocError>
    ensures { IfOk result (λ text. text ≡ output_given (map string_bytes words.now)) }
{
    value_given(alloc, words, Setting::Output)
}

/// The same of `--step`.
pub fn step_given(alloc: Global, words: &[String]) -> Result<Text, AllocError>
    ensures { IfOk result (λ text. text ≡ step_given (map string_bytes words.now)) }
{
    value_given(alloc, words, Setting::Step)
}

// The input of this number, from 0, among the arguments, empty if there is none.
fn input_or_empty(alloc: Global, arguments: &[Argument], number: usize) -> Result<Text, AllocError>
    ensures { IfOk result (λ text. text ≡ get_or (inputs_in arguments.now) number []) }
{
    let inputs = inputs_in(alloc, arguments)?;
    match inputs.items().get(number) {
        Some(name) => copied(alloc, name.as_str()),
        None => copied(alloc, ""),
    }
}

// The input of this number that the words after the command's name give.
fn input_after_name(alloc: Global, words: &[String], number: usize) -> Result<Text, AllocError>
    ensures { IfOk result (λ text. text ≡
        input_among number (arguments_from 1 None (map string_bytes words.now))) }
{
    match arguments_of(alloc, words) {
        Ok(arguments) => input_or_empty(alloc, &arguments, number),
        Err(WordsFault::Refused(_)) => copied(alloc, ""),
        Err(WordsFault::OutOfMemory) => Err(AllocError),
    }
}

/// The name of the input with this number that the words give, as [`Refusal`](crate::Refusal)
/// numbers it. Empty if there is none, or if not all words were understood.
pub fn input_given(alloc: Global, words: &[String], number: usize) -> Result<Text, AllocError>
    ensures { IfOk result (λ text. text ≡ input_given number (map string_bytes words.now)) }
{
    match words.split_first() {
        Some((_, others)) => input_after_name(alloc, others, number),
        None => copied(alloc, ""),
    }
}
