// The word at the beginning of a file.
ghost use Rattle.std.specs.Prelude.{◌≡◌};
ghost use Rattle.mesh_read.specs.Off.Keywords.{has_prefix, without, name_in, is_keyword, is_homogeneous, is_count};

use mesh_number::number_in;

// Whether the word begins with these letters, in any case.
fn has_prefix(word: &[u8], prefix: &[u8]) -> bool
    ensures { result ≡ has_prefix prefix.now word.now }
{
    prefix.len() <= word.len() && word.split_at(prefix.len()).0.eq_ignore_ascii_case(prefix)
}

// What follows these letters, if the word begins with them.
fn without<'a>(word: &'a [u8], prefix: &[u8]) -> &'a [u8]
    ensures { result.now ≡ without prefix.now word.now }
{
    if has_prefix(word, prefix) {
        word.split_at(prefix.len()).1
    } else {
        word
    }
}

// The name at the end of the word.
fn name_in(word: &[u8]) -> &[u8]
    ensures { result.now ≡ name_in word.now }
{
    without(without(without(word, b"ST"), b"C"), b"N")
}

// Whether it is the keyword of a file whose vertices have three coordinates.
pub(crate) fn is_keyword(word: &[u8]) -> bool
    ensures { result ≡ is_keyword word.now }
{
    name_in(word).eq_ignore_ascii_case(b"OFF")
}

// Whether it is the keyword of a file whose vertices have four coordinates.
pub(crate) fn is_homogeneous(word: &[u8]) -> bool
    ensures { result ≡ is_homogeneous word.now }
{
    name_in(word).eq_ignore_ascii_case(b"4OFF")
}

// Whether it is a natural number.
pub(crate) fn is_count(word: &[u8]) -> bool
    ensures { result ≡ is_count word.now }
{
    number_in(word).is_some()
}
