// Formats of meshes that aren't read, by how their files begin.
ghost use Rattle.std.specs.Prelude.{◌≡◌, ◌≤◌, length};
ghost use Rattle.ember_model.specs.Limits.{most_bytes};
ghost use Rattle.mesh_read.specs.Stl.ReadStl.{has_name};
ghost use Rattle.mesh_file.specs.File.Unread.{begins_tag, is_markup, signed_format, markup_format, unread_format};

use crate::file::reason_parts::front;
use mesh_read::{Blanks, Part, next_word_between};

// A file of markup names its root element within this many bytes.
const FIRST_BYTES: usize = 4096;

/// A format that isn't read.
#[derive(Clone, Copy, Debug, PartialEq, Eq)]
pub enum UnreadFormat {
    /// A zip archive, as a 3MF file is.
    Zip,
    Gzip,
    Fbx,
    Step,
    Vrml,
    Collada,
    Amf,
    Html,
}

// The format that begins with bytes of its own.
fn signed_format(bytes: &[u8]) -> Option<UnreadFormat>
    ensures { result ≡ signed_format bytes.now }
{
    if bytes.starts_with(b"PK\x03\x04") {
        Some(UnreadFormat::Zip)
    } else if bytes.starts_with(b"\x1f\x8b") {
        Some(UnreadFormat::Gzip)
    } else if bytes.starts_with(b"Kaydara FBX") || bytes.starts_with(b"; FBX") {
        Some(UnreadFormat::Fbx)
    } else if bytes.starts_with(b"ISO-10303-21") {
        Some(UnreadFormat::Step)
    } else if bytes.starts_with(b"#VRML") {
        Some(UnreadFormat::Vrml)
    } else {
        None
    }
}

// Whether a word begins a tag, with or without a byte order mark before it.
fn begins_tag(word: &[u8]) -> bool
    ensures { result ≡ begins_tag word.now }
{
    word.starts_with(b"<") || word.starts_with(b"\xef\xbb\xbf<")
}

// Whether the first word begins a tag.
fn is_markup(bytes: &[u8]) -> bool
    requires { length bytes.now ≤ most_bytes }
    ensures { result ≡ is_markup bytes.now }
{
    match next_word_between(Part::of_file(bytes), Blanks::Any) {
        Some((word, _)) => begins_tag(word.bytes),
        None => false,
    }
}

// Whether the name occurs in the text, in any case.
fn has(text: &[u8], name: &[u8]) -> bool
    ensures { result ≡ has_name name.now text.now }
{
    let mut rest = text;
    while let Some((_, after)) = rest.split_first() {
        if front(rest, name.len()).eq_ignore_ascii_case(name) {
            return true;
        }
        rest = after;
    }
    false
}

// The format of markup that has one of these elements.
fn markup_format(head: &[u8]) -> Option<UnreadFormat>
    ensures { result ≡ markup_format head.now }
{
    if has(head, b"<collada") {
        Some(UnreadFormat::Collada)
    } else if has(head, b"<amf") {
        Some(UnreadFormat::Amf)
    } else if has(head, b"<html") || has(head, b"<!doctype html") {
        Some(UnreadFormat::Html)
    } else {
        None
    }
}

// The format that a file begins as, if it is one that isn't read.
pub(crate) fn unread_format(bytes: &[u8]) -> Option<UnreadFormat>
    requires { length bytes.now ≤ most_bytes }
    ensures { result ≡ unread_format bytes.now }
{
    if is_markup(bytes) {
        markup_format(front(bytes, FIRST_BYTES))
    } else {
        signed_format(bytes)
    }
}
