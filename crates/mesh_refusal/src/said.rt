// What standard error takes of a request that isn't met: a line, or one object of JSON.
ghost use Rattle.std.specs.Prelude.{◌≡◌, ◌+◌, length, map, option_map, IfOk, string_bytes};
ghost use Rattle.mesh_refusal.specs.Lines.{IsShown};
ghost use Rattle.mesh_texts.specs.Texts.{name_of};
ghost use Rattle.mesh_refusal.specs.Said.{IsSaidOf, export_said, file_at_fault, memory_said, output_said, place_known, reading_said, said, snap_said, solid_said, status_said, words_said};

use crate::export_lines::{names_read, put_export_why};
use crate::lines::{noun_of, put_reading_why, put_scene_why, put_why};
use crate::refusal_objects::refusal_object;
use crate::status::Status;
use crate::word_lines::put_refusal;
use ember_model::OutOfMemory;
use ember_words::Texts;
use mesh_texts::{line, name_among, put_count};
use mesh_words::{ExportRequest, Refusal, Request, SnapRequest};
use std::alloc::Global;

const MEMORY_LINE: &[u8] = b"ember-mesh: out of memory\n";

const MEMORY_OBJECT: &[u8] =
    b"{\"status\": 12, \"file\": null, \"place\": null, \"reason\": \"out of memory\", \"remedy\": null}\n";

const NO_OUTPUT_LINE: &[u8] = b"ember-mesh: cannot write to standard output\n";

const NO_OUTPUT_OBJECT: &[u8] =
    b"{\"status\": 4, \"file\": null, \"place\": null, \"reason\": \"cannot write to standard output\", \"remedy\": null}\n";

/// What is said of want of memory. It allocates nothing.
pub fn memory_said(json: bool) -> &'static [u8]
    ensures { result.now ≡ memory_said json }
{
    if json { MEMORY_OBJECT } else { MEMORY_LINE }
}

/// What is said of standard output that fails. It allocates nothing.
pub fn output_said(json: bool) -> &'static [u8]
    ensures { result.now ≡ output_said json }
{
    if json {
        NO_OUTPUT_OBJECT
    } else {
        NO_OUTPUT_LINE
    }
}

// ---- refusals
// The line with this text, or the object of its parts.
fn said(
    alloc: Global,
    json: bool,
    number: u8,
    file: Option<&[u8]>,
    place: Option<&[u8]>,
    why: &[u8],
) -> Result<Vec<u8>, OutOfMemory>
    ensures { IfOk result (IsSaidOf json number file.entry place.entry why.now) }
{
    if json {
        refusal_object(alloc, number, file, place, why)
    } else {
        line(alloc, why)
    }
}

// The name of the file with this index, from 0; empty past the last.
fn name_at(names: &Texts, index: usize) -> &[u8]
    ensures { result.now ≡ name_of names.now (index + 1) }
{
    match names.items().get(index) {
        Some(name) => name.as_str().as_bytes(),
        None => &[],
    }
}

// The name of the last file; empty if there is none.
fn last_name(names: &Texts) -> &[u8]
    ensures { result.now ≡ name_of names.now (length names.now) }
{
    match names.items().last() {
        Some(name) => name.as_str().as_bytes(),
        None => &[],
    }
}

// The name of the file at fault, if one is.
fn file_at_fault<'a>(names: &'a Texts, status: &'a Status) -> Option<&'a [u8]>
    ensures { option_map (λ name. name.now) result ≡ file_at_fault names.now status.now }
{
    match status {
        Status::ReadFault(number, _) => Some(name_among(names, *number)),
        Status::NotWritten(name) => Some(name.as_bytes()),
        Status::NotAScene => Some(name_among(names, 1)),
        Status::DocumentRefused(_) => Some(last_name(names)),
        Status::FileRefused(number, _) => Some(name_among(names, *number)),
        Status::NotClosed(fault, _) => Some(name_at(names, fault.file as usize)),
        Status::LongFile(number) => Some(name_among(names, *number)),
        _ => None,
    }
}

// The place in the file at fault, if the text of the line doesn't begin with it.
fn place_known(alloc: Global, status: &Status) -> Result<Option<Vec<u8>>, OutOfMemory>
    ensures { IfOk result (λ place. option_map (λ p. p.items) place ≡ place_known status.now) }
{
    let Status::NotClosed(fault, format) = status else {
        return Ok(None);
    };
    let mut place = Vec::from_slice(alloc, noun_of(*format))?;
    place.extend_from_slice(b" ")?;
    put_count(u64::from(fault.place), &mut place)?;
    Ok(Some(place))
}

// What is said of a status of these files: the line with this text, or the object of its parts.
fn status_said(
    alloc: Global,
    json: bool,
    names: &Texts,
    status: &Status,
    why: &[u8],
) -> Result<Vec<u8>, OutOfMemory>
    ensures { IfOk result (λ text. text.items ≡ status_said json names.now status.now why.now) }
{
    let number = status.number();
    let file = file_at_fault(names, status);
    match place_known(alloc, status)? {
        Some(place) => said(alloc, json, number, file, Some(&place), why),
        None => said(alloc, json, number, file, None, why),
    }
}

/// What is said of a Boolean that isn't written.
pub fn solid_said(
    alloc: Global,
    json: bool,
    request: &Request,
    status: &Status,
) -> Result<Vec<u8>, OutOfMemory>
    requires { IsShown status.now }
    ensures { IfOk result (λ text. text.items ≡ solid_said json request.now status.now) }
{
    let mut why = Vec::new(alloc);
    put_why(request, status, &mut why)?;
    status_said(alloc, json, &request.files, status, &why)
}

/// What is said of meshes that aren't put on their grid.
pub fn snap_said(
    alloc: Global,
    json: bool,
    request: &SnapRequest,
    status: &Status,
) -> Result<Vec<u8>, OutOfMemory>
    requires { IsShown status.now }
    ensures { IfOk result (λ text. text.items ≡ snap_said json request.now status.now) }
{
    let mut why = Vec::new(alloc);
    put_scene_why(&request.files, &request.step, status, &mut why)?;
    status_said(alloc, json, &request.files, status, &why)
}

/// What is said of a document that isn't exported.
pub fn export_said(
    alloc: Global,
    json: bool,
    request: &ExportRequest,
    status: &Status,
) -> Result<Vec<u8>, OutOfMemory>
    ensures { IfOk result (λ text. text.items ≡ export_said json request.now status.now) }
{
    let names = names_read(alloc, request)?;
    let mut why = Vec::new(alloc);
    put_export_why(alloc, request, status, &mut why)?;
    status_said(alloc, json, &names, status, &why)
}

/// What is said of files that aren't all read, or of a page that isn't written.
pub fn reading_said(
    alloc: Global,
    json: bool,
    names: &Texts,
    status: &Status,
) -> Result<Vec<u8>, OutOfMemory>
    ensures { IfOk result (λ text. text.items ≡ reading_said json names.now status.now) }
{
    let mut why = Vec::new(alloc);
    put_reading_why(names, status, &mut why)?;
    status_said(alloc, json, names, status, &why)
}

/// What is said of refused words.
pub fn words_said(
    alloc: Global,
    json: bool,
    words: &[String],
    refusal: Refusal,
) -> Result<Vec<u8>, OutOfMemory>
    ensures { IfOk result (λ text. text.items ≡ words_said json (map string_bytes words.now) refusal) }
{
    let mut why = Vec::new(alloc);
    put_refusal(alloc, words, refusal, &mut why)?;
    said(alloc, json, 2, None, None, &why)
}
