// Whether faces of one plane overlap.
ghost use Rattle.std.specs.Prelude.{◌≡◌, ◌≤◌, ◌↔◌, All, map, IfOk, IsTrue};
ghost use Rattle.std.specs.List.{list_any};
ghost use Rattle.std.specs.List.Sorted.{IsNonDecreasing};
ghost use Rattle.ember_reread.specs.Cornered.{face_of};
ghost use Rattle.mesh_solid.specs.Refusal.Overlaps.{HaveOverlap};
ghost use Rattle.mesh_solid.specs.Refusal.Searches.{any_pair, are_overlaid, overlap};

use crate::refusal::apart::are_apart;
use crate::refusal::numbered::{index_in, numbers_of, plane_in};
use ember_model::OutOfMemory;
use ember_reread::CorneredFace;
use std::alloc::Global;

// Whether these numbers are of two faces that aren't apart.
fn are_overlaid(faces: &[CorneredFace], first: u64, second: u64) -> bool
    ensures { result ≡ are_overlaid (map face_of faces.now) first second }
{
    let (i, j) = (index_in(first), index_in(second));
    if i == j {
        return false;
    }
    match (faces.get(i), faces.get(j)) {
        (Some(v), Some(w)) => !are_apart(v, w),
        _ => false,
    }
}

// Whether the face with this number overlaps one of the others, whose numbers are in order.
fn overlaps_one(faces: &[CorneredFace], number: u64, others: &[u64]) -> bool
    requires least { All (λ n. number ≤ n) others.now }
    requires order { IsNonDecreasing others.now }
    ensures { result ≡ list_any (overlap (map face_of faces.now) number) others.now }
{
    let plane = plane_in(number);
    let mut rest = others;
    while let Some((other, behind)) = rest.split_first() {
        if plane_in(*other) != plane {
            return false;
        }
        if are_overlaid(faces, number, *other) {
            return true;
        }
        rest = behind;
    }
    false
}

// Whether two of the faces overlap that have these numbers, which are in order.
fn any_overlap(faces: &[CorneredFace], numbers: &[u64]) -> bool
    requires { IsNonDecreasing numbers.now }
    ensures { result ≡ any_pair (overlap (map face_of faces.now)) numbers.now }
{
    let mut rest = numbers;
    while let Some((number, behind)) = rest.split_first() {
        if overlaps_one(faces, *number, behind) {
            return true;
        }
        rest = behind;
    }
    false
}

/// Whether two of the faces lie in one plane with one front and aren't apart. It compares each two
/// faces of a plane, so the time grows with the square of their number. Its one error is
/// out-of-memory.
pub fn have_overlap(alloc: Global, faces: &[CorneredFace]) -> Result<bool, OutOfMemory>
    ensures { IfOk result (λ found. IsTrue found ↔ HaveOverlap (map face_of faces.now)) }
{
    let mut numbers = numbers_of(alloc, faces)?;
    numbers.sort_unstable();
    let found = any_overlap(faces, &numbers);
    Ok(found)
}
