// Texts of words.
ghost use Rattle.std.specs.Prelude.{◌≡◌, IfOk, option_map};
ghost use Rattle.ember_dec.specs.Decimal.{is_minus};
ghost use Rattle.mesh_words.specs.Arguments.{parts_of};

use ember_words::Text;
use std::alloc::{AllocError, Global};

/// A copy of the text.
pub fn copied(alloc: Global, text: &str) -> Result<Text, AllocError>
    ensures { IfOk result (λ copy. copy ≡ text.now) }
{
    Ok(Text::of(String::from_str(alloc, text)?))
}

/// The text before the first equals sign, and the text after it. None if there is no equals sign.
pub fn parts(word: &str) -> Option<(&str, &str)>
    ensures { option_map (λ p. (p.0.now, p.1.now)) result ≡ parts_of word.now }
{
    word.split_once('=')
}

/// Whether the word begins with a hyphen.
pub fn begins_with_hyphen(word: &str) -> bool
    ensures { result ≡ is_minus word.now }
{
    match word.as_bytes().split_first() {
        Some((byte, _)) => *byte == b'-',
        None => false,
    }
}
