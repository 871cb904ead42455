// The word `-`, which stands for standard input and for standard output.
ghost use Rattle.std.specs.Prelude.{◌≡◌};
ghost use Rattle.mesh_words.specs.Streams.{is_option_word, is_stream, reads_twice};

use crate::texts::begins_with_hyphen;
use ember_words::Text;

/// Whether the word is `-`.
pub fn is_stream(word: &str) -> bool
    ensures { result ≡ is_stream word.now }
{
    word == "-"
}

/// Whether the word begins with a hyphen, and more follows.
pub fn is_option_word(word: &str) -> bool
    ensures { result ≡ is_option_word word.now }
{
    begins_with_hyphen(word) && !is_stream(word)
}

/// Whether two of these names or more are `-`.
pub fn reads_twice(names: &[Text]) -> bool
    ensures { result ≡ reads_twice names.now }
{
    names.iter().filter(|name| is_stream(name.as_str())).count() > 1
}
