// A refusal as an object of JSON.
ghost use Rattle.std.specs.Prelude.{◌≡◌, ◌≤◌, length, map, option_map, IfOk};
ghost use Rattle.std.specs.Char.{is_ascii_digit};
ghost use Rattle.std.specs.List.{prefix_len};
ghost use Rattle.mesh_refusal.specs.Refusals.{IsRefusalObject, before_remedy, noun_length, parts_of, placed, reason_and_remedy, text_behind, without_name};

use ember_model::OutOfMemory;
use mesh_texts::{keyed, number, object_line, optional, string};
use std::alloc::Global;

// What helps, as lines end.
const REMEDIES: [&[u8]; 26] = [
    b"export anew",
    b"it is cut off, export anew",
    b"remove the facet or export anew",
    b"export in another unit",
    b"export as triangles",
    b"export as OFF",
    b"export as STL, OBJ, PLY or OFF",
    b"export as GLB",
    b"export without compression",
    b"apply the transforms and export anew",
    b"unpack the file",
    b"download the mesh itself",
    b"remove it",
    b"is it a mesh?",
    b"are they meshes?",
    b"close the hole in the modeller",
    b"simplify the mesh",
    b"simplify the meshes",
    b"move the meshes to the origin",
    b"give another name",
    b"give fewer digits",
    b"give another factor",
    b"move it less far",
    b"give at most 12 digits and 12 decimal places",
    b"take the scene.json that snap or --keep wrote",
    b"see ember-mesh help",
];

// The text without `NAME: ` at its front.
fn without_name<'a>(name: &[u8], why: &'a [u8]) -> &'a [u8]
    ensures { result.now ≡ without_name name.now why.now }
{
    let Some(behind) = why.strip_prefix(name) else {
        return why;
    };
    match behind.strip_prefix(b": ") {
        Some(text) => text,
        None => why,
    }
}

// How many bytes there are before the first blank.
fn noun_length(text: &[u8]) -> usize
    ensures value { result ≡ noun_length text.now }
    ensures bound { result ≤ length text.now }
{
    let mut count = 0;
    for byte in text {
        if *byte == b' ' {
            return count;
        }
        count += 1;
    }
    count
}

// How many digits are at the front of the text.
fn digits_in(text: &[u8]) -> usize
    ensures value { result ≡ prefix_len is_ascii_digit text.now }
    ensures bound { result ≤ length text.now }
{
    let mut count = 0;
    for byte in text {
        if !byte.is_ascii_digit() {
            return count;
        }
        count += 1;
    }
    count
}

// The place `NOUN NUMBER` before a colon at the front of the text, and what follows it.
fn placed(text: &[u8]) -> (Option<&[u8]>, &[u8])
    ensures { (option_map (λ place. place.now) result.0, result.1.now) ≡ placed text.now }
{
    let noun = noun_length(text);
    if noun == text.len() {
        return (None, text);
    }
    let digits = digits_in(&text[noun + 1..]);
    if digits == 0 {
        return (None, text);
    }
    let (place, behind) = text.split_at(noun + 1 + digits);
    match behind.strip_prefix(b": ") {
        Some(rest) => (Some(place), rest),
        None => (None, text),
    }
}

// The place in the text of a line, if the line names a file, and the rest without the name.
fn parts_of<'a>(file: Option<&[u8]>, why: &'a [u8]) -> (Option<&'a [u8]>, &'a [u8])
    ensures { (text_behind result.0, result.1.now) ≡ parts_of (text_behind file.entry) why.now }
{
    match file {
        Some(name) => placed(without_name(name, why)),
        None => (None, why),
    }
}

// The text before this remedy, if it ends so.
fn before_remedy<'a>(remedy: &[u8], text: &'a [u8]) -> Option<&'a [u8]>
    ensures { option_map (λ reason. reason.now) result ≡ before_remedy remedy.now text.now }
{
    let before = text.strip_suffix(remedy)?;
    before.strip_suffix(b"; ")
}

// The reason, and the first of the remedies that the text ends in.
fn reason_and_remedy<'a>(
    remedies: &[&'static [u8]],
    text: &'a [u8],
) -> (&'a [u8], Option<&'static [u8]>)
    ensures { (result.0.now, text_behind result.1) ≡
        reason_and_remedy (map (λ remedy. remedy.now) remedies.now) text.now }
{
    for remedy in remedies {
        if let Some(reason) = before_remedy(remedy, text) {
            return (reason, Some(*remedy));
        }
    }
    (text, None)
}

/// The object of a line with this text: the exit status, the name of the file at fault, if there is
/// one, its place, the reason and the remedy, `null` where there is none. A place that isn't in the
/// text is `known`. It ends in a line feed.
pub fn refusal_object(
    alloc: Global,
    status: u8,
    file: Option<&[u8]>,
    known: Option<&[u8]>,
    why: &[u8],
) -> Result<Vec<u8>, OutOfMemory>
    ensures { IfOk result (IsRefusalObject status file.entry known.entry why.now) }
{
    let (place, text) = parts_of(file, why);
    let (reason, remedy) = reason_and_remedy(&REMEDIES, text);
    let status = number(alloc, u64::from(status))?;
    let file = optional(alloc, file)?;
    let place = optional(alloc, known.or(place))?;
    let reason = string(alloc, reason)?;
    let remedy = optional(alloc, remedy)?;
    let members = [
        keyed(b"status", status),
        keyed(b"file", file),
        keyed(b"place", place),
        keyed(b"reason", reason),
        keyed(b"remedy", remedy),
    ];
    object_line(alloc, &members)
}
