// Faces by numbers: that of the plane times 2^32, and the index of the face.
ghost use Rattle.std.specs.Prelude.{◌≡◌, map, IfOk};
ghost use Rattle.ember_reread.specs.Cornered.{face_of};
ghost use Rattle.mesh_solid.specs.Refusal.Searches.{AreNumbered, index_in, plane_in};

use crate::tables::{PlaneEntry, entry_of, number_of};
use ember_model::OutOfMemory;
use ember_reread::CorneredFace;
use indexmap::IndexSet;
use mesh_certificate::plane_key;
use std::alloc::{AllocError, Global};

const TWO_TO_32: u64 = 4_294_967_296;

/// The number of the plane.
pub fn plane_in(number: u64) -> u64
    ensures { result ≡ plane_in number }
{
    number / TWO_TO_32
}

/// The index of the face.
pub fn index_in(number: u64) -> usize
    ensures { result ≡ index_in number }
{
    (number % TWO_TO_32) as usize
}

/// The numbers of the faces, in order. Faces of one plane with one front have the same number of a
/// plane. No memory holds 2^32 faces.
pub fn numbers_of(alloc: Global, faces: &[CorneredFace]) -> Result<Vec<u64>, OutOfMemory>
    ensures { IfOk result (λ numbers. AreNumbered (map face_of faces.now) numbers.items) }
{
    if faces.len() >= 4_294_967_295 {
        return Err(AllocError);
    }
    let mut planes: IndexSet<PlaneEntry> = IndexSet::new(alloc);
    let mut numbers = Vec::with_capacity(alloc, faces.len())?;
    for (index, face) in faces.iter().enumerate() {
        let Ok(plane) = number_of(&mut planes, entry_of(&plane_key(&face.support))) else {
            return Err(AllocError);
        };
        numbers.push(u64::from(plane) * TWO_TO_32 + index as u64)?;
    }
    Ok(numbers)
}
