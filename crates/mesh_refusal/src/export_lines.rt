// Why a document isn't exported.
ghost use Rattle.std.specs.Prelude.{◌≡◌, ◌++◌, ◌+◌, IfOk, OnOk, decimal};
ghost use Rattle.mesh_refusal.specs.ExportLines.{document_text, export_why, face_text, named_text, names_read, table_text};

use crate::lines::{put_file, put_reading_why, put_uncut, too_far_text, too_many_text};
use crate::status::Status;
use ember_model::OutOfMemory;
use ember_words::{Text, Texts};
use itoa::Buffer;
use mesh_solid::{DocumentFault, TableFault};
use mesh_texts::put_value;
use mesh_words::ExportRequest;
use std::alloc::Global;

const NOT_A_SCENE: &[u8] =
    b"not a scene of ember-mesh; take the scene.json that snap or --keep wrote";

const OVERLAP: &[u8] = b"faces of one plane overlap; not a document of bool";

const NOT_CLOSED: &[u8] = b"the document isn't closed along a line; not a document of bool";

const FAR_CORNER: &[u8] = b"a corner outside the cube, or of a weight of 2^75 or more";

// Appends what is said of the face with this number from 0.
fn put_face(name: &[u8], face: usize, why: &[u8], text: &mut Vec<u8>) -> Result<(), OutOfMemory>
    ensures { OnOk result (text.new.items ≡ text.old.items ++ face_text name.now face why.now) }
{
    let mut buffer = Buffer::new();
    let number = buffer.format(face as u128 + 1);
    text.extend_from_slice(name)?;
    text.extend_from_slice(b": face ")?;
    text.extend_from_slice(number.as_bytes())?;
    text.extend_from_slice(b": ")?;
    text.extend_from_slice(why)
}

// Appends why the faces of a document have no tables.
fn put_table_why(name: &[u8], fault: &TableFault, text: &mut Vec<u8>) -> Result<(), OutOfMemory>
    ensures { OnOk result (text.new.items ≡ text.old.items ++ table_text name.now fault.now) }
{
    match fault {
        TableFault::NoLine(face) => {
            put_face(
                name,
                *face,
                b"an edge whose plane is parallel to the face",
                text,
            )
        }
        TableFault::NoCorner(face) => put_face(name, *face, FAR_CORNER, text),
        TableFault::TooMany => put_value(name, b": ", b"more than 2147483647 edges", text),
        TableFault::OutOfMemory => text.extend_from_slice(b"out of memory"),
    }
}

// Appends why a document has no mesh.
fn put_document_why(
    name: &[u8],
    fault: &DocumentFault,
    text: &mut Vec<u8>,
) -> Result<(), OutOfMemory>
    ensures { OnOk result (text.new.items ≡ text.old.items ++ document_text name.now fault.now) }
{
    match fault {
        DocumentFault::NotADocument => put_value(name, b": ", b"not a face file", text),
        DocumentFault::OffPlane(face) => put_face(name, *face, b"a corner off its plane", text),
        DocumentFault::OffEdge(face) => put_face(name, *face, b"a corner off its edge", text),
        DocumentFault::NotRound(face) => {
            put_face(name, *face, b"its edges don't lead around it", text)
        }
        DocumentFault::NoTables(fault) => put_table_why(name, fault, text),
        DocumentFault::NotClosed => put_value(name, b": ", NOT_CLOSED, text),
        DocumentFault::Overlap => put_value(name, b": ", OVERLAP, text),
        DocumentFault::NotCut(fault) => put_uncut(fault, text),
        DocumentFault::OutOfMemory => text.extend_from_slice(b"out of memory"),
    }
}

// A copy of a name.
fn copied(alloc: Global, name: &Text) -> Result<Text, OutOfMemory>
    ensures { IfOk result (λ copy. copy ≡ name.now) }
{
    let copy = String::from_str(alloc, name.as_str())?;
    Ok(Text::of(copy))
}

/// The names of the files in the order in which they are read.
pub fn names_read(alloc: Global, request: &ExportRequest) -> Result<Texts, OutOfMemory>
    ensures { IfOk result (λ names. names ≡ names_read request.now) }
{
    let mut names = Vec::new(alloc);
    let document = copied(alloc, &request.document)?;
    let Some(scene) = &request.scene else {
        names.push(document)?;
        return Ok(Texts::of(names));
    };
    names.push(copied(alloc, scene)?)?;
    names.push(document)?;
    Ok(Texts::of(names))
}

/// Appends why a document isn't exported.
pub fn put_export_why(
    alloc: Global,
    request: &ExportRequest,
    status: &Status,
    text: &mut Vec<u8>,
) -> Result<(), OutOfMemory>
    ensures { OnOk result (text.new.items ≡ text.old.items ++ export_why request.now status.now) }
{
    let names = names_read(alloc, request)?;
    let document = request.document.as_str().as_bytes();
    match status {
        Status::NotAScene => put_file(&names, 1, NOT_A_SCENE, text),
        Status::DocumentRefused(fault) => put_document_why(document, fault, text),
        Status::TooManyWritten => text.extend_from_slice(too_many_text(request.format)),
        Status::TooFar => text.extend_from_slice(too_far_text(request.format)),
        _ => put_reading_why(&names, status, text),
    }
}
