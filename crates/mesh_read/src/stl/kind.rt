// Which form of STL a file has.
ghost use Rattle.std.specs.Prelude.{◌≡◌, ◌+◌, ◌*◌, ◌≤◌, [], length, take};
ghost use Rattle.std.specs.Bool.{OnTrue};
ghost use Rattle.std.specs.Str.{str_eq_ignore_ascii_case};
ghost use Rattle.ember_model.specs.Limits.{most_bytes};
ghost use Rattle.mesh_read.specs.Scan.Parts.{is_space, words_by};
ghost use Rattle.mesh_read.specs.Stl.Binary.{number_at};
ghost use Rattle.mesh_read.specs.Stl.ReadStl.{is_binary, is_ascii, begins_with, has_name, facets_said};

use crate::scan::{Blanks, Part, next_word_between};
use crate::stl::keyword::is_same_word;

// The bytes of a binary STL before its first facet.
pub(crate) const HEADER: usize = 84;

// Where the header says how many facets follow.
pub(crate) const COUNT_AT: usize = 80;

// The first words of an ASCII STL are within this many bytes.
const FIRST_BYTES: usize = 4096;

// The number of four bytes, the lowest byte first.
#[tactic(none)]
pub(crate) fn read_number(bytes: &[u8], at: usize) -> u32
    requires { at + 4 ≤ length bytes.now }
    ensures { result ≡ number_at bytes.now at }
{
    u32::from(bytes[at])
        + u32::from(bytes[at + 1]) * 256
        + u32::from(bytes[at + 2]) * 65_536
        + u32::from(bytes[at + 3]) * 16_777_216
}

// How many facets the file says that it has, or 0 if it is too short to say so.
pub(crate) fn count_facets(bytes: &[u8]) -> u32
    ensures { result ≡ facets_said bytes.now }
{
    if bytes.len() >= HEADER {
        read_number(bytes, COUNT_AT)
    } else {
        0
    }
}

/// Whether the length is that of a binary STL: exactly 84 + 50 n bytes, where the four bytes from
/// byte 80 on are n, the lowest byte first. The header may begin with `solid`.
#[tactic(none)]
pub fn is_binary_stl(bytes: &[u8]) -> bool
    ensures kind { result ≡ is_binary bytes.now }
    ensures length { OnTrue result (length bytes.now ≡ 84 + 50 * number_at bytes.now 80) }
{
    bytes.len() >= HEADER && bytes.len() == HEADER + 50 * (read_number(bytes, COUNT_AT) as usize)
}

// The first `count` bytes, or all.
fn front(bytes: &[u8], count: usize) -> &[u8]
    ensures { result.now ≡ take count bytes.now }
{
    if count < bytes.len() {
        bytes.split_at(count).0
    } else {
        bytes
    }
}

// Whether the text begins with the name, in any case.
fn begins(text: &[u8], name: &[u8]) -> bool
    ensures { result ≡ str_eq_ignore_ascii_case (take (length name.now) text.now) name.now }
{
    is_same_word(front(text, name.len()), name)
}

// Whether the name occurs in the text, in any case.
fn has(text: &[u8], name: &[u8]) -> bool
    ensures { result ≡ has_name name.now text.now }
{
    let mut rest = text;
    while let Some((_, after)) = rest.split_first() {
        if begins(rest, name) {
            return true;
        }
        rest = after;
    }
    false
}

/// Whether the first word of a file is this one, in any case. Blanks are spaces and all bytes from
/// tab to carriage return.
pub fn begins_with_word(bytes: &[u8], name: &[u8]) -> bool
    requires { length bytes.now ≤ most_bytes }
    ensures { result ≡ begins_with name.now (words_by is_space 0 bytes.now []) }
{
    match next_word_between(Part::of_file(bytes), Blanks::Any) {
        Some((word, _)) => is_same_word(word.bytes, name),
        None => false,
    }
}

/// Whether the first word is `solid`, and `facet` or `endsolid` occurs in the first 4,096 bytes,
/// all in any case. A binary STL may have both. There are at most 2^28 bytes.
pub fn is_ascii_stl(bytes: &[u8]) -> bool
    requires { length bytes.now ≤ most_bytes }
    ensures { result ≡ is_ascii bytes.now }
{
    let first = front(bytes, FIRST_BYTES);
    begins_with_word(bytes, b"solid") && (has(first, b"facet") || has(first, b"endsolid"))
}
