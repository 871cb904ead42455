// The command `slice`.
ghost use Rattle.std.specs.Prelude.{ℕ, ℤ, pos, negsuc, ◌≤ℤ◌, ◌≡◌, ◌≢◌, ◌≤◌, List, length, All, Err, IfOk, IfErr};
ghost use Rattle.ember_model.specs.Limits.{most_bytes, narrow_limit};
ghost use Rattle.ember_model.specs.FaceFiles.{IsFaceFile};
ghost use Rattle.ember_model.specs.Valid.{IsValidFace};
ghost use Rattle.ember_verdict.specs.Statuses.{RefusesOnlyAs};
ghost use Rattle.ember_io.specs.Calls.{shelf_seen};
ghost use Rattle.ember_words.specs.declared.command.Command.TheVariants.{Slice};
ghost use Rattle.ember_verdict.specs.HeldTexts.{IsTextOf};
ghost use Rattle.ember_verdict.specs.NoReplies.{IsNoReplyTo};
ghost use Rattle.ember_verdict.specs.Slices.{IsSlice};
ghost use Rattle.ember_verdict.specs.Verdict.{Slices};

use crate::reading::read_bytes;
use crate::status::{FaceFault, Status};
use ember_io::Shelf;
use ember_model::FaceList;
use ember_reread::{RereadFault, read_faces};
use ember_slice::{SliceFault, slice_text};
use ember_words::Text;
use std::alloc::Global;

// The faces of a face file.
fn faces_in(alloc: Global, bytes: &[u8]) -> Result<FaceList, Status>
    requires few { length bytes.now ≤ most_bytes }
    ensures faces { IfOk result (λ faces. IsFaceFile bytes.now faces) }
    ensures valid { IfOk result (λ faces. All IsValidFace faces) }
    ensures count { IfOk result (λ faces. length faces ≤ most_bytes) }
    ensures refused { (at : ℤ) → IfErr result (RefusesOnlyAs (Slices at bytes.now)) }
    ensures no_read_fault { (i : ℕ) → result ≢ Err (Status.ReadFault i) }
    ensures never { (result ≢ Err Status.Done) × (result ≢ Err Status.Words) × (result ≢ Err Status.WriteFault) }
{
    match read_faces(alloc, bytes) {
        Ok(faces) => Ok(faces),
        Err(RereadFault::Form) => Err(Status::FaceRefused(FaceFault::Form)),
        Err(RereadFault::OutOfMemory) => Err(Status::OutOfMemory),
    }
}

// The text of the segments of these faces, which were read from the bytes.
fn segments_text(alloc: Global, faces: &FaceList, at: i32) -> Result<Vec<u8>, Status>
    requires valid { All IsValidFace faces.now }
    requires few { length faces.now ≤ most_bytes }
    requires low { negsuc narrow_limit ≤ℤ at }
    requires high { at ≤ℤ pos narrow_limit }
    ensures text { (bytes : List ℕ) → IsFaceFile bytes faces.now → IfOk result (λ text. IsSlice at bytes text.items) }
    ensures refused { (bytes : List ℕ) → IsFaceFile bytes faces.now → IfErr result (RefusesOnlyAs (Slices at bytes)) }
    ensures no_read_fault { (i : ℕ) → result ≢ Err (Status.ReadFault i) }
    ensures never { (result ≢ Err Status.Done) × (result ≢ Err Status.Words) × (result ≢ Err Status.WriteFault) }
{
    match slice_text(alloc, faces, at) {
        Ok(text) => Ok(text),
        Err(SliceFault::Endless(n)) => Err(Status::FaceRefused(FaceFault::Endless(n))),
        Err(SliceFault::OutOfMemory) => Err(Status::OutOfMemory),
    }
}

// The slice of a face file.
fn slice_of(alloc: Global, bytes: &[u8], at: i32) -> Result<Vec<u8>, Status>
    requires few { length bytes.now ≤ most_bytes }
    requires low { negsuc narrow_limit ≤ℤ at }
    requires high { at ≤ℤ pos narrow_limit }
    ensures text { IfOk result (λ text. IsSlice at bytes.now text.items) }
    ensures refused { IfErr result (RefusesOnlyAs (Slices at bytes.now)) }
    ensures no_read_fault { (i : ℕ) → result ≢ Err (Status.ReadFault i) }
    ensures never { (result ≢ Err Status.Done) × (result ≢ Err Status.Words) × (result ≢ Err Status.WriteFault) }
{
    match faces_in(alloc, bytes) {
        Ok(faces) => segments_text(alloc, &faces, at),
        Err(status) => Err(status),
    }
}

/// The output of `slice`: the segments in which the faces of a face file meet the plane z = at +
/// 1/2, in units, for an `at` from -2048 to 2047. The error is the status with which the call ends
/// instead.
pub fn slice_output<S: Shelf>(
    alloc: Global,
    at: i32,
    file: &Text,
    shelf: &mut S,
) -> Result<Vec<u8>, Status>
    requires low { negsuc narrow_limit ≤ℤ at }
    requires high { at ≤ℤ pos narrow_limit }
    ensures contents { S.contents shelf.new ≡ S.contents shelf.old }
    ensures later { S.faults shelf.old ≤ S.faults shelf.new }
    ensures text { IfOk result (IsTextOf (Slice at file.now) (S.contents shelf.old)) }
    ensures no_reply { IfErr result (IsNoReplyTo (Slice at file.now) (shelf_seen S.Shelf shelf)) }
{
    let bytes = match read_bytes(alloc, shelf, file.as_str(), 1) {
        Ok(bytes) => bytes,
        Err(status) => return Err(status),
    };
    slice_of(alloc, &bytes, at)
}
