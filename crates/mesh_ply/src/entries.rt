// What a line of the header says.
ghost use Rattle.std.specs.Prelude.{◌≡◌};
ghost use Rattle.mesh_read.specs.Scan.Parts.{words_in};
ghost use Rattle.mesh_ply.specs.Header.{two_of, four_of, format_entry, element_entry, scalar_entry, list_entry, property_entry, stray_entry, entry_behind, entry_of};

use crate::declarations::{Declaration, Element, ElementKind, Entry};
use crate::names::{
    axis, element_kind, encoding, is_name, lists_corners, passes_over, scalar_type,
};
use crate::words::{four_words, two_words};
use mesh_number::number_in;
use mesh_read::{Part, next_word};

fn read_format<'a>(words: Part<'a>) -> Option<Entry>
    ensures { result ≡ format_entry (words_in words.entry) }
{
    let (name, _) = next_word(words)?;
    Some(Entry::Format(encoding(name.bytes)))
}

fn read_element<'a>(words: Part<'a>) -> Option<Entry>
    ensures { result ≡ element_entry (two_of (words_in words.entry)) }
{
    let (name, count) = two_words(words)?;
    let count = number_in(count.bytes)?;
    Some(Entry::Declared(Declaration::Element(Element {
        kind: element_kind(name.bytes),
        name: name.span(),
        count,
    })))
}

fn read_scalar<'a>(kind: ElementKind, words: Part<'a>) -> Option<Entry>
    ensures { result ≡ scalar_entry kind (two_of (words_in words.entry)) }
{
    let (type_name, name) = two_words(words)?;
    let scalar = scalar_type(type_name.bytes)?;
    Some(Entry::Declared(Declaration::Scalar(axis(kind, name.bytes), scalar)))
}

fn read_list<'a>(kind: ElementKind, words: Part<'a>) -> Option<Entry>
    ensures { result ≡ list_entry kind (four_of (words_in words.entry)) }
{
    let (keyword, size, item, name) = four_words(words)?;
    if !is_name(keyword.bytes, b"list") {
        return None;
    }
    let size = scalar_type(size.bytes)?;
    let item = scalar_type(item.bytes)?;
    Some(Entry::Declared(Declaration::List(lists_corners(kind, name.bytes), size, item)))
}

fn read_property<'a>(kind: Option<ElementKind>, words: Part<'a>) -> Option<Entry>
    ensures { result ≡ property_entry kind (words_in words.entry) }
{
    let kind = kind?;
    match read_scalar(kind, words) {
        Some(entry) => Some(entry),
        None => read_list(kind, words),
    }
}

// What a line says that isn't understood: before the first element it is passed over.
fn stray_entry(kind: Option<ElementKind>) -> Option<Entry>
    ensures { result ≡ stray_entry kind }
{
    match kind {
        Some(_) => None,
        None => Some(Entry::Passed),
    }
}

fn read_behind<'a>(kind: Option<ElementKind>, keyword: &[u8], words: Part<'a>) -> Option<Entry>
    ensures { result ≡ entry_behind kind keyword.now (words_in words.entry) }
{
    if is_name(keyword, b"property") {
        return read_property(kind, words);
    }
    if is_name(keyword, b"element") {
        return read_element(words);
    }
    if is_name(keyword, b"format") {
        return read_format(words);
    }
    if passes_over(keyword) {
        return Some(Entry::Passed);
    }
    if is_name(keyword, b"end_header") {
        return Some(Entry::End);
    }
    stray_entry(kind)
}

// What a line says after an element of this kind, or before the first element.
pub(crate) fn read_entry<'a>(kind: Option<ElementKind>, line: Part<'a>) -> Option<Entry>
    ensures { result ≡ entry_of kind (words_in line.entry) }
{
    let Some((keyword, words)) = next_word(line) else {
        return Some(Entry::Passed);
    };
    read_behind(kind, keyword.bytes, words)
}
