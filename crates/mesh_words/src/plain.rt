// Words of a command that has no options.
ghost use Rattle.std.specs.Prelude.{◌≡◌, IfOk, map, string_bytes};
ghost use Rattle.std.specs.List.{list_any};
ghost use Rattle.mesh_words.specs.Arguments.{is_help};
ghost use Rattle.mesh_words.specs.Plain.{is_option, first_option, plain_names};

use crate::arguments::{is_help, is_json};
use crate::streams::is_option_word;
use crate::texts::copied;
use ember_words::Texts;
use std::alloc::{AllocError, Global};

// Whether the word begins with a hyphen, isn't `-` itself, and asks neither for help nor for JSON.
fn is_option(word: &str) -> bool
    ensures { result ≡ is_option word.now }
{
    is_option_word(word) && !is_help(word) && !is_json(word)
}

/// The number, from 1, of the first word that begins with a hyphen, isn't `-` itself, and asks neither
/// for help nor for JSON. None if there is no such word.
pub fn first_option(words: &[String]) -> Option<usize>
    ensures { result ≡ first_option 1 (map string_bytes words.now) }
{
    for (number, word) in words.iter().enumerate() {
        if is_option(word) {
            return Some(number + 1);
        }
    }
    None
}

/// Whether one of the words asks for help.
pub fn are_for_help(words: &[String]) -> bool
    ensures { result ≡ list_any is_help (map string_bytes words.now) }
{
    for word in words {
        if is_help(word) {
            return true;
        }
    }
    false
}

/// Copies of the words that don't begin with a hyphen, and of `-` itself, in their order.
pub fn plain_names(alloc: Global, words: &[String]) -> Result<Texts, AllocError>
    ensures { IfOk result (λ names. names ≡ plain_names (map string_bytes words.now)) }
{
    let mut names = Vec::new(alloc);
    for word in words {
        if !is_option_word(word) {
            names.push(copied(alloc, word)?)?;
        }
    }
    Ok(Texts::of(names))
}
