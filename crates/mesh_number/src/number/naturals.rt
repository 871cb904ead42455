// Natural numbers as texts.
ghost use Rattle.std.specs.Prelude.{◌≡◌, min};
ghost use Rattle.std.specs.Option.{option_map};
ghost use Rattle.mesh_number.specs.Number.Naturals.{number_of, below};

use ember_dec::{append_digits, are_digits};

/// More lines, words, vertices or corners than a file has.
pub const MOST: u64 = 1_000_000_000_000_000;

/// The number that a text of digits spells, or [`MOST`] if it is larger. None if the text has
/// another byte than digits, or no byte.
#[tactic(none)]
pub fn number_in(text: &[u8]) -> Option<u64>
    ensures { result ≡ option_map (min MOST) (number_of text.now) }
{
    if text.is_empty() || !are_digits(text) {
        return None;
    }
    Some(append_digits(0, text, MOST))
}

/// The number that a text of digits spells, if it is below this limit.
#[tactic(none)]
pub fn number_below(limit: u32, text: &[u8]) -> Option<u32>
    ensures { result ≡ below limit (number_of text.now) }
{
    let number = number_in(text)?;
    if number >= u64::from(limit) {
        return None;
    }
    Some(number as u32)
}
