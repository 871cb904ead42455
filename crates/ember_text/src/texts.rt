// The texts of written regions, one after another.
ghost use Rattle.std.specs.Prelude.{◌≡◌, map, IfOk, OnOk};
ghost use Rattle.ember_leaf.specs.Written.{HasGrown};
ghost use Rattle.ember_text.specs.Documents.{AreTextsInRange, IsTextOf, written_face};

use crate::face::face_text;
use ember_leaf::Kept;
use ember_model::OutOfMemory;
use std::alloc::Global;
use std::marker::Model;

/// The texts of some faces, one after another, and the number of these faces.
#[derive(Drop)]
pub struct FacesText {
    bytes: Vec<u8>,
    count: u64,
}

impl Model for FacesText {
    ghost use Rattle.ember_text.specs.FacesTexts.{FacesText as FacesTextView};

    ghost Value = { FacesTextView };

    ghost view = { λ s. record { bytes = s.bytes.items; count = s.count } };
}

impl FacesText {
    /// The bytes of the texts.
    pub fn bytes(&self) -> &[u8]
        ensures { result.now ≡ self.now.bytes }
    {
        &self.bytes
    }

    /// The number of the faces.
    pub fn count(&self) -> u64
        ensures { result ≡ self.now.count }
    {
        self.count
    }
}

/// Appends the texts of written regions, in order, each with the opposite front if it is flipped.
/// The only error is out-of-memory.
pub fn put_faces(alloc: Global, kept: &[Kept], out: &mut Vec<u8>) -> Result<(), OutOfMemory>
    ensures { OnOk result (
        HasGrown (AreTextsInRange (map written_face kept.now)) out.old.items out.new.items) }
{
    for k in kept {
        face_text(alloc, &k.ring, k.flipped, out)?;
    }
    Ok(())
}

/// The texts of written regions, in order, each with the opposite front if it is flipped. The only
/// error is out-of-memory.
pub fn text_of_faces(alloc: Global, kept: &[Kept]) -> Result<FacesText, OutOfMemory>
    ensures { IfOk result (λ text. IsTextOf (map written_face kept.now) text) }
{
    let mut bytes = Vec::new(alloc);
    put_faces(alloc, kept, &mut bytes)?;
    // Many texts wait side by side, so none keeps room that it doesn't need.
    bytes.shrink_to_fit();
    Ok(FacesText {
        bytes,
        count: kept.len() as u64,
    })
}
