// Calls over devices in memory.
ghost use Rattle.std.specs.Prelude.{◌≡◌, None, IfSome};

use ember_io::{Calls, FileSet, MemoryShelf, MemorySink};
use mesh_outside::MemoryTarget;
use mesh_run::{Status, run_mesh_one};
use std::alloc::Global;
use steal_pool::OpenGate;

/// Files by their names.
pub type Named<'a> = &'a [(&'a str, &'a [u8])];

/// What the names of the output and of a page hold before each call.
pub const BEFORE: &[u8] = b"before";

/// What a call gave.
#[derive(Drop)]
pub struct Given {
    pub status: Status,
    pub target: MemoryTarget,
    pub out: MemorySink,
    pub err: MemorySink,
}

impl Given {
    /// What the name holds.
    pub fn held(&self, name: &str) -> &[u8] {
        match self.target.bytes_of(name) {
            Some(bytes) => bytes,
            None => &[],
        }
    }

    /// What out.stl holds.
    pub fn bytes(&self) -> &[u8] {
        self.held("out.stl")
    }
}

/// There is no file of this name.
pub fn lacks(given: &Given, name: &str) -> bool {
    given.target.bytes_of(name).is_none()
}

// These files, if there is memory for them.
fn file_set(alloc: Global, named: Named) -> Option<FileSet> {
    let mut files = Vec::new(alloc);
    for (name, bytes) in named {
        let name = String::from_str(alloc, name).ok()?;
        let bytes = Vec::from_slice(alloc, bytes).ok()?;
        files.push((name, bytes)).ok()?;
    }
    Some(FileSet::of(files))
}

/// No call.
pub fn none(alloc: Global) -> Calls {
    Calls::of(Vec::new(alloc))
}

/// The call of this number.
pub fn only(alloc: Global, call: u64) -> Option<Calls> {
    Some(Calls::of(Vec::from_slice(alloc, &[call]).ok()?))
}

// A target in which out.stl and out.html hold something, and whose calls of these numbers fail.
fn target_of(alloc: Global, failing: Calls) -> Option<MemoryTarget>
    ensures { IfSome result (λ target. target.begun ≡ None) }
{
    let mut target = MemoryTarget::new(alloc, 4096, failing);
    target.put("out.stl", BEFORE).ok()?;
    target.put("out.html", BEFORE).ok()?;
    Some(target)
}

// The words of a line, which stand with one blank between each two.
fn words_of(alloc: Global, line: &str) -> Option<Vec<String>> {
    let mut words = Vec::new(alloc);
    for word in line.split(' ') {
        let word = String::from_str(alloc, word).ok()?;
        words.push(word).ok()?;
    }
    Some(words)
}

/// What the words of a line give over these files, by the calling thread alone, if these calls of
/// the shelf and of the target fail, and standard output has room for so many bytes.
pub fn give(
    alloc: Global,
    line: &str,
    files: Named,
    shelf_calls: Calls,
    target_calls: Calls,
    room: usize,
) -> Option<Given> {
    let words = words_of(alloc, line)?;
    let mut shelf = MemoryShelf::new(alloc, file_set(alloc, files)?, 4096, shelf_calls).ok()?;
    let mut target = target_of(alloc, target_calls)?;
    let mut out = MemorySink::new(alloc, room, 4096, none(alloc)).ok()?;
    let mut err = MemorySink::new(alloc, 10_000, 4096, none(alloc)).ok()?;
    let status = run_mesh_one(
        alloc,
        &words,
        &mut shelf,
        &mut target,
        &mut out,
        &mut err,
        &OpenGate,
    );
    Some(Given {
        status,
        target,
        out,
        err,
    })
}
