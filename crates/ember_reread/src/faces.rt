// Face files.
ghost use Rattle.std.specs.Prelude.{ℕ, ◌≡◌, ◌⊎◌, ◌≤◌, ◌∷◌, ◌++◌, List, length, All, IfOk, IfErr, IsTrue, ◌↔◌};
ghost use Rattle.ember_model.specs.declared.face.Face.{Face};
ghost use Rattle.ember_model.specs.Valid.{IsValidFace};
ghost use Rattle.ember_model.specs.FaceFiles.{IsFaceFile, ending};
ghost use Rattle.ember_reread.specs.Lines.{IsBody};

use crate::edges::take_face;
use crate::fault::RereadFault;
use crate::parts::{skip_byte, skip_bytes};
use ember_model::FaceList;
use itoa::Buffer;
use std::alloc::Global;

pub(crate) const HEADER: &[u8] = b"ember 1\n";

// Whether the bytes are the last line of a file of that many faces.
pub(crate) fn is_ending(bytes: &[u8], count: usize) -> bool
    ensures { IsTrue result ↔ (bytes.now ≡ ending count) }
{
    let mut buffer = Buffer::new();
    let Some(rest) = skip_bytes(bytes, b"end ") else {
        return false;
    };
    let Some(rest) = skip_bytes(rest, buffer.format(count).as_bytes()) else {
        return false;
    };
    rest == b"\n".as_slice()
}

// Whether the bytes begin as a face's lines do.
pub(crate) fn begins_face(bytes: &[u8]) -> bool
    ensures { IsTrue result ↔ ((rest : List ℕ) × (bytes.now ≡ 102 ∷ rest)) }
{
    skip_byte(bytes, b'f').is_some()
}

// The faces of the lines after the header.
fn faces_in(alloc: Global, bytes: &[u8]) -> Result<FaceList, RereadFault>
    ensures ok { IfOk result (λ list. IsBody list bytes.now) }
    ensures form { IfErr result (λ e. (e ≡ RereadFault.OutOfMemory) ⊎ ((fs : List Face) → IsBody fs bytes.now → ⊥)) }
{
    let mut faces = Vec::new(alloc);
    let mut rest = bytes;
    while begins_face(rest) {
        let (face, after) = take_face(alloc, rest)?;
        faces.push(face)?;
        rest = after;
    }
    if is_ending(rest, faces.len()) {
        Ok(FaceList::of(faces))
    } else {
        Err(RereadFault::Form)
    }
}

/// The faces of a face file, in order. The start corners are checked for their form and then
/// dropped. It is a fault if the bytes aren't a face file.
pub fn read_faces(alloc: Global, bytes: &[u8]) -> Result<FaceList, RereadFault>
    ensures faces { IfOk result (λ list. IsFaceFile bytes.now list) }
    ensures form { IfErr result (λ e. (e ≡ RereadFault.OutOfMemory) ⊎ ((fs : List Face) → IsFaceFile bytes.now fs →
        ⊥)) }
    ensures valid { IfOk result (λ list. All IsValidFace list) }
    ensures few { IfOk result (λ list. length list ≤ length bytes.now) }
{
    match skip_bytes(bytes, HEADER) {
        Some(rest) => faces_in(alloc, rest),
        None => Err(RereadFault::Form),
    }
}
