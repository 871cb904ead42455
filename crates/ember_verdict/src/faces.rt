// The command `faces`.
ghost use Rattle.std.specs.Prelude.{◌≡◌, ◌≤◌, length, All, IfOk, IfErr};
ghost use Rattle.ember_model.specs.Limits.{most_triangles};
ghost use Rattle.ember_model.specs.Valid.{IsValidTri};
ghost use Rattle.ember_verdict.specs.FaceTexts.{AddsFace, IsFaceFileOf};
ghost use Rattle.ember_io.specs.Calls.{shelf_seen};
ghost use Rattle.ember_words.specs.declared.command.Command.TheVariants.{Faces};
ghost use Rattle.ember_verdict.specs.HeldTexts.{IsTextOf};
ghost use Rattle.ember_verdict.specs.NoReplies.{IsNoReplyTo};

use crate::reading::read_file;
use crate::status::Status;
use ember_io::Shelf;
use ember_model::{OutOfMemory, Tri};
use ember_poly::of_tri;
use ember_text::{begin_file, end_file, face_text};
use ember_words::Text;
use std::alloc::Global;

// Appends the triangle's face, if it has one. Returns the number of faces added, 0 or 1.
#[tactic(auto, using(crate::proofs::FaceLists::flat_adds, crate::proofs::FaceLists::face_adds))]
fn add_face(alloc: Global, tri: &Tri, text: &mut Vec<u8>) -> Result<u32, OutOfMemory>
    requires { IsValidTri tri.now }
    ensures { IfOk result (λ count. AddsFace tri.now count text.old.items text.new.items) }
{
    match of_tri(alloc, tri)? {
        None => Ok(0),
        Some(ring) => {
            face_text(alloc, &ring, false, text)?;
            Ok(1)
        }
    }
}

// The face file of the triangles' faces.
#[tactic(auto, using(crate::proofs::FaceLists::no_texts, crate::proofs::FaceLists::more_texts))]
fn faces_text(alloc: Global, tris: &[Tri]) -> Result<Vec<u8>, OutOfMemory>
    requires valid { All IsValidTri tris.now }
    requires few { length tris.now ≤ most_triangles }
    ensures { IfOk result (λ text. IsFaceFileOf tris.now text.items) }
{
    let mut text = begin_file(alloc)?;
    let mut count = 0u32;
    for tri in tris {
        count += add_face(alloc, tri, &mut text)?;
    }
    end_file(count, &mut text)?;
    Ok(text)
}

/// The output of `faces`: the face of each triangle of the file that isn't flat, in order. `places`
/// is at most 3. The error is the status with which the call ends instead.
pub fn faces_output<S: Shelf>(
    alloc: Global,
    places: u8,
    file: &Text,
    shelf: &mut S,
) -> Result<Vec<u8>, Status>
    requires { places ≤ 3 }
    ensures contents { S.contents shelf.new ≡ S.contents shelf.old }
    ensures later { S.faults shelf.old ≤ S.faults shelf.new }
    ensures text { IfOk result (IsTextOf (Faces places file.now) (S.contents shelf.old)) }
    ensures no_reply { IfErr result (IsNoReplyTo (Faces places file.now) (shelf_seen S.Shelf shelf)) }
{
    let soup = read_file(alloc, shelf, file.as_str(), 1, places)?;
    Ok(faces_text(alloc, soup.tris.items())?)
}
