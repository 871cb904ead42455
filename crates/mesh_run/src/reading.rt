// The bytes of the files, in order.
ghost use Rattle.std.specs.Prelude.{◌≡◌, ◌<◌, ◌≤◌, ◌+◌, length, map, take, All, IfOk, IfErr};
ghost use Rattle.ember_model.specs.Limits.{most_bytes};
ghost use Rattle.ember_io.specs.Calls.{shelf_seen};
ghost use Rattle.mesh_run.specs.Causes.{IsEndAt, IsReadingCause, IsRefusalCause};
ghost use Rattle.mesh_run.specs.Files.{AreContents, AreReadAs, IfFirstTold, IfTold};

use ember_io::{FaultKind, ReadEnd, Shelf, read_all};
use ember_model::OutOfMemory;
use ember_words::Text;
use mesh_boolean::{InputFile, surfaces_in};
use mesh_read::Surface;
use mesh_refusal::{Status, status_of};
use std::alloc::Global;
use steal_pool::OpenGate;

/// The greatest number of bytes of a file, 2^28.
pub const MOST_BYTES: u64 = 268_435_456;

/// The files with these bytes, in order. There may be more names than bytes.
pub fn input_files<'a>(
    alloc: Global,
    names: &'a [Text],
    contents: &'a [Vec<u8>],
) -> Result<Vec<InputFile<'a>>, OutOfMemory>
    requires few { length contents.now ≤ length names.now }
    ensures names { IfOk result (λ files.
        map (λ file. file.name.now) files.items ≡ take (length contents.now) names.now) }
    ensures bytes { IfOk result (λ files.
        map (λ file. file.bytes.now) files.items ≡ map (λ b. b.items) contents.now) }
{
    let mut files = Vec::with_capacity(alloc, contents.len())?;
    for (index, bytes) in contents.iter().enumerate() {
        files.push(InputFile {
            name: names[index].as_str().as_bytes(),
            bytes: bytes.as_slice(),
        })?;
    }
    Ok(files)
}

/// The surfaces of files with these bytes, or why the first that has none is refused. There may be
/// more names than bytes.
pub fn surfaces_of<'a>(
    alloc: Global,
    names: &'a [Text],
    contents: &'a [Vec<u8>],
) -> Result<Vec<Surface<'a>>, Status>
    requires few { length names.now ≤ 64 }
    requires named { length contents.now ≤ length names.now }
    requires small { All (λ bytes. length bytes.items ≤ most_bytes) contents.now }
    ensures read { IfOk result (λ it.
        IfTold (take (length contents.now) names.now) contents.now AreReadAs it.items) }
    ensures cause { IfErr result (IfFirstTold names.now contents.now IsRefusalCause) }
{
    let files = input_files(alloc, names, contents)?;
    match surfaces_in(alloc, &files, &OpenGate) {
        Ok(surfaces) => Ok(surfaces),
        Err(fault) => Err(status_of(alloc, &files, fault)),
    }
}

// Why reading ends at the file after these: one of them is refused, or that file can't be read. The
// shelf's last fault was of this kind.
fn status_after(
    alloc: Global,
    names: &[Text],
    contents: &[Vec<u8>],
    end: ReadEnd,
    kind: FaultKind,
) -> Status
    requires few { length names.now ≤ 64 }
    requires named { length contents.now < length names.now }
    requires small { All (λ bytes. length bytes.items ≤ most_bytes) contents.now }
    ensures { IfFirstTold names.now contents.now
        (λ told all. IsEndAt told all (length contents.now + 1) end kind) result }
{
    let number = contents.len() as u32 + 1;
    match surfaces_of(alloc, names, contents) {
        Ok(_) => match end {
            ReadEnd::ReadFault => Status::ReadFault(number, kind),
            ReadEnd::TooLong(_) => Status::LongFile(number),
            ReadEnd::OutOfMemory => Status::OutOfMemory,
        },
        Err(status) => status,
    }
}

/// The bytes of the files with these names, in order, at most 2^28 each. There are at most 64 names.
/// The error is the status: a file is refused, or can't be read, or is too long, or out-of-memory.
///
/// A file can be refused before one after it can't be read. So if a file isn't read, those before it
/// are looked at.
pub fn read_contents<S: Shelf>(
    alloc: Global,
    shelf: &mut S,
    names: &[Text],
) -> Result<Vec<Vec<u8>>, Status>
    requires { length names.now ≤ 64 }
    ensures same { S.contents shelf.new ≡ S.contents shelf.old }
    ensures later { S.faults shelf.old ≤ S.faults shelf.new }
    ensures contents { IfOk result (λ contents. AreContents (S.contents shelf.old) names.now contents.items) }
    ensures cause { IfErr result (IsReadingCause names.now (shelf_seen S.Shelf shelf)) }
{
    let mut contents = Vec::with_capacity(alloc, names.len())?;
    for name in names {
        let number = contents.len() as u32 + 1;
        match read_all(alloc, shelf, name.as_str(), number, MOST_BYTES) {
            Ok(bytes) => contents.push(bytes)?,
            Err(end) => {
                let kind = shelf.last_fault();
                return Err(status_after(alloc, names, &contents, end, kind));
            }
        }
    }
    Ok(contents)
}
