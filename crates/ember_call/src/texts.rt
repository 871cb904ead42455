// Words as texts.
ghost use Rattle.std.specs.Prelude.{◌≡◌, All, IfOk, IsErrOf, map, string_bytes};
ghost use Rattle.std.specs.Str.{IsUtf8};
ghost use Rattle.ember_call.specs.Lent.{word_bytes};
ghost use Rattle.ember_call.specs.declared.texts.NoTexts.TheVariants.{OutOfMemory};

use crate::lent::Lent;
use std::alloc::{AllocError, AllocFailed, Global};
use thiserror::Error;

/// Why words aren't texts.
#[derive(Clone, Copy, Debug, PartialEq, Eq, Error)]
pub enum NoTexts {
    /// A word isn't UTF-8.
    #[error("a word is no text")]
    NotUtf8,
    #[error("out of memory")]
    OutOfMemory,
}

impl From<AllocError> for NoTexts {
    ghost from_gives = { λ _ e. e ≡ OutOfMemory };

    fn from(_error: AllocError) -> NoTexts {
        NoTexts::OutOfMemory
    }
}

impl<T: Drop> From<AllocFailed<T>> for NoTexts {
    ghost from_gives = { λ _ e. e ≡ OutOfMemory };

    fn from(_error: AllocFailed<T>) -> NoTexts {
        NoTexts::OutOfMemory
    }
}

// The bytes as a text.
fn text_of(alloc: Global, bytes: &[u8]) -> Result<String, NoTexts>
    ensures text { IfOk result (λ text. string_bytes text ≡ bytes.now) }
    ensures not_utf8 { IsErrOf result NoTexts.NotUtf8 → ¬ (IsUtf8 bytes.now) }
{
    let copy = Vec::from_slice(alloc, bytes)?;
    match String::from_utf8(copy) {
        Ok(text) => Ok(text),
        Err(_) => Err(NoTexts::NotUtf8),
    }
}

/// The words as texts.
pub fn texts_of(alloc: Global, words: &[Lent]) -> Result<Vec<String>, NoTexts>
    ensures texts { IfOk result (λ texts. map string_bytes texts.items ≡ word_bytes words.now) }
    ensures not_utf8 { IsErrOf result NoTexts.NotUtf8 → ¬ (All IsUtf8 (word_bytes words.now)) }
{
    let mut texts = Vec::with_capacity(alloc, words.len())?;
    for word in words {
        match text_of(alloc, word.bytes) {
            Ok(text) => texts.push(text)?,
            Err(fault) => return Err(fault),
        }
    }
    Ok(texts)
}
