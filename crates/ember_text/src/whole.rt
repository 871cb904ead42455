// The document: the face file of written regions.
ghost use Rattle.std.specs.Prelude.{◌≡◌, map, IfOk};
ghost use Rattle.ember_text.specs.Documents.{IsDocumentOf, IsDocumentText, document_of, joined, written_face};

use crate::file::{begin_file, put_ending};
use crate::texts::{FacesText, put_faces};
use ember_leaf::Kept;
use ember_model::OutOfMemory;
use std::alloc::{AllocError, Global};

// No last line is longer.
const LONGEST_ENDING: usize = 25;

/// The face file of written regions: the header, their faces in order, each with the opposite
/// front if it is flipped, and the last line with their number. The only error is out-of-memory.
/// Only tests call this; the program makes the text of each leaf at once and joins the texts
/// (`document_of`).
pub fn document(alloc: Global, kept: &[Kept]) -> Result<Vec<u8>, OutOfMemory>
    ensures { IfOk result (λ text. IsDocumentText (map written_face kept.now) text.items) }
{
    let mut text = begin_file(alloc)?;
    put_faces(alloc, kept, &mut text)?;
    put_ending(kept.len() as u64, &mut text)?;
    Ok(text)
}

/// The number of faces of all these texts. An overflow of 64 bits would be reported as
/// out-of-memory. It can't occur: each face has some bytes of text in memory.
pub fn face_count(texts: &[FacesText]) -> Result<u64, OutOfMemory>
    ensures { IfOk result (λ count. count ≡ (joined texts.now).count) }
{
    let mut all = 0u64;
    for text in texts {
        let Some(next) = all.checked_add(text.count()) else {
            return Err(AllocError);
        };
        all = next;
    }
    Ok(all)
}

/// The face file of the faces with these texts: the header, the texts in order, and the last line
/// with the number of all faces. The only error is out-of-memory.
pub fn document_of(alloc: Global, texts: Vec<FacesText>) -> Result<Vec<u8>, OutOfMemory>
    ensures bytes { IfOk result (λ file. file.items ≡ document_of (joined texts.items)) }
    ensures document { IfOk result (λ file. IsDocumentOf texts.items file.items) }
{
    let count = face_count(&texts)?;
    let size = texts.iter().fold(
        LONGEST_ENDING,
        |size, text| size.saturating_add(text.bytes().len()),
    );
    let mut file = begin_file(alloc)?;
    file.reserve_exact(size)?;
    for text in texts {
        file.extend_from_slice(text.bytes())?;
    }
    put_ending(count, &mut file)?;
    Ok(file)
}
