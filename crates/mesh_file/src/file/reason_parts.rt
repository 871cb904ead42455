// Parts of the text of a refusal.
ghost use Rattle.std.specs.Prelude.{◌≡◌, ◌++◌, ◌<◌, take, drop, codes, decimal, map, OnOk, string_bytes};
ghost use Rattle.mesh_file.specs.File.Reasons.{between, shown, shown_byte, numbered, at, with_word, need, cut_off};

use itoa::Buffer;
use std::alloc::AllocError;

// The first `count` bytes, or all.
pub(crate) fn front(bytes: &[u8], count: usize) -> &[u8]
    ensures { result.now ≡ take count bytes.now }
{
    if count < bytes.len() {
        bytes.split_at(count).0
    } else {
        bytes
    }
}

// The bytes after the first `count`.
fn rest(bytes: &[u8], count: usize) -> &[u8]
    ensures { result.now ≡ drop count bytes.now }
{
    if count < bytes.len() {
        bytes.split_at(count).1
    } else {
        &[]
    }
}

// The bytes from one place to another.
pub(crate) fn between(bytes: &[u8], start: usize, end: usize) -> &[u8]
    ensures { result.now ≡ between start end bytes.now }
{
    rest(front(bytes, end), start)
}

// The byte if it is a visible ASCII character, or else a question mark.
fn shown_byte(byte: u8) -> u8
    ensures value { result ≡ shown_byte byte }
    ensures ascii { result < 128 }
{
    if byte.is_ascii_graphic() { byte } else { b'?' }
}

// Appends a word of a file, as it is shown.
pub(crate) fn put_word(word: &[u8], text: &mut String) -> Result<(), AllocError>
    ensures { OnOk result (string_bytes text.new ≡ string_bytes text.old ++ shown word.now) }
{
    for byte in word {
        text.push(char::from(shown_byte(*byte)))?;
    }
    Ok(())
}

// Appends a text and a number.
fn put_counted(before: &str, number: u64, text: &mut String) -> Result<(), AllocError>
    ensures { OnOk result (string_bytes text.new ≡ string_bytes text.old ++ (before.now ++ decimal number)) }
{
    let mut buffer = Buffer::new();
    text.push_str(before)?;
    text.push_str(buffer.format(number))
}

// Appends a number between two texts.
pub(crate) fn put_between(
    before: &str,
    number: u64,
    behind: &str,
    text: &mut String,
) -> Result<(), AllocError>
    ensures { OnOk result (string_bytes text.new
        ≡ string_bytes text.old ++ (before.now ++ decimal number ++ behind.now)) }
{
    put_counted(before, number, text)?;
    text.push_str(behind)
}

// Appends the number of a place, and a reason.
pub(crate) fn put_numbered(number: u32, reason: &str, text: &mut String) -> Result<(), AllocError>
    ensures { OnOk result (string_bytes text.new ≡ string_bytes text.old ++ numbered number reason.now) }
{
    put_counted(" ", u64::from(number), text)?;
    text.push_str(": ")?;
    text.push_str(reason)
}

// Appends a place with its noun, as `line 3`, and a reason.
pub(crate) fn put_at(
    noun: &str,
    number: u32,
    reason: &str,
    text: &mut String,
) -> Result<(), AllocError>
    ensures { OnOk result (string_bytes text.new ≡ string_bytes text.old ++ at noun.now number reason.now) }
{
    text.push_str(noun)?;
    put_numbered(number, reason, text)
}

// Appends a line and a reason with a word of the line.
pub(crate) fn put_with_word(
    line: u32,
    before: &str,
    word: &[u8],
    after: &str,
    text: &mut String,
) -> Result<(), AllocError>
    ensures { OnOk result (string_bytes text.new ≡ string_bytes text.old
        ++ with_word line before.now word.now after.now) }
{
    put_at("line", line, before, text)?;
    put_word(word, text)?;
    text.push_str(after)
}

// Appends how many bytes so many facets need.
fn put_need(facets: u32, text: &mut String) -> Result<(), AllocError>
    ensures { OnOk result (string_bytes text.new ≡ string_bytes text.old ++ need facets) }
{
    let facets = u64::from(facets);
    put_counted(" bytes, but ", facets, text)?;
    put_counted(" facets need ", 84 + 50 * facets, text)
}

// Appends that an STL of so many bytes is neither ASCII STL nor binary STL of so many facets.
pub(crate) fn put_cut_off(length: usize, facets: u32, text: &mut String) -> Result<(), AllocError>
    ensures { OnOk result (string_bytes text.new ≡ string_bytes text.old ++ cut_off length facets) }
{
    put_counted("neither ASCII STL nor binary STL: ", length as u64, text)?;
    put_need(facets, text)?;
    text.push_str("; it is cut off, export anew")
}
