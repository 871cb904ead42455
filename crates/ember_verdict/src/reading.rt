// The bytes and the triangles of a file. `after_x` is a step of the verdict (specs/Verdict.antt).
ghost use Rattle.std.specs.Prelude.{◌≡◌, ◌≤◌, length, All, IfOk, IfErr};
ghost use Rattle.ember_io.specs.Shelves.{AreBytes};
ghost use Rattle.ember_model.specs.Limits.{most_triangles};
ghost use Rattle.ember_io.specs.Calls.{shelf_seen};
ghost use Rattle.ember_verdict.specs.Held.{MayPassOn};
ghost use Rattle.ember_verdict.specs.NoReplies.{IsNoFile};
ghost use Rattle.ember_verdict.specs.Verdict.{after_bytes, after_file};

use crate::status::{LimitKind, Status};
use ember_io::{ReadEnd, Shelf, read_all};
use ember_model::Soup;
use ember_obj::{ObjFault, read_obj};
use std::alloc::Global;

// The greatest number of bytes of a file, 2^28.
const MOST_BYTES: u64 = 268_435_456;

/// Reads the bytes of the file with this name. `number` is its number, from 1; a status names the
/// file by it. The error is the status: the file can't be read, it is too long, or out-of-memory.
#[tactic(auto, using(crate::proofs::NoFiles::long_is_no_file, crate::proofs::NoFiles::unread_is_no_file, crate::proofs::NoFiles::memory_is_no_file))]
pub fn read_bytes<S: Shelf>(
    alloc: Global,
    shelf: &mut S,
    name: &str,
    number: u32,
) -> Result<Vec<u8>, Status>
    ensures contents { S.contents shelf.new ≡ S.contents shelf.old }
    ensures later { S.faults shelf.old ≤ S.faults shelf.new }
    ensures bytes { IfOk result (λ bytes. AreBytes (S.contents shelf.old) name.now bytes.items) }
    ensures no_file { IfErr result (IsNoFile (after_bytes number) number name.now (shelf_seen S.Shelf shelf)) }
{
    match read_all(alloc, shelf, name, number, MOST_BYTES) {
        Ok(bytes) => Ok(bytes),
        Err(ReadEnd::ReadFault) => Err(Status::ReadFault(number)),
        Err(ReadEnd::TooLong(count)) => Err(Status::Limit(LimitKind::Bytes(number), count)),
        Err(ReadEnd::OutOfMemory) => Err(Status::OutOfMemory),
    }
}

/// Reads the triangles of the file with this name. `number` is its number, from 1: the number of
/// the triangles' mesh, by which a status also names the file. `places` is at most 3. The error is
/// the status: one of `read_bytes`, or the first fault of the OBJ file.
#[tactic(auto, using(crate::proofs::Verdicts::file_held, crate::proofs::NoFiles::fault_is_no_file, crate::proofs::NoFiles::memory_is_no_file))]
pub fn read_file<S: Shelf>(
    alloc: Global,
    shelf: &mut S,
    name: &str,
    number: u32,
    places: u8,
) -> Result<Soup, Status>
    requires { places ≤ 3 }
    ensures contents { S.contents shelf.new ≡ S.contents shelf.old }
    ensures later { S.faults shelf.old ≤ S.faults shelf.new }
    ensures read { IfOk result (λ soup.
        MayPassOn (after_file places number) (S.contents shelf.old name.now) soup.tris) }
    ensures few { IfOk result (λ soup. length soup.tris ≤ most_triangles) }
    ensures mesh { IfOk result (λ soup. All (λ t. t.mesh ≡ number) soup.tris) }
    ensures no_file { IfErr result (IsNoFile (after_file places number) number name.now (shelf_seen S.Shelf shelf)) }
{
    let bytes = read_bytes(alloc, shelf, name, number)?;
    match read_obj(alloc, &bytes, places, number) {
        Ok(soup) => Ok(soup),
        Err(ObjFault::OutOfMemory) => Err(Status::OutOfMemory),
        Err(fault) => Err(Status::ObjRefused(number, fault)),
    }
}
