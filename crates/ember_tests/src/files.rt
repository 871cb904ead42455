// Files of the tests, and the devices that hold them.
use crate::calls::{file_set, only, words_of};
use ember_io::{MemoryShelf, MemorySink, SafeShelf, Shelf};
use ember_run::{Status, run, run_one};
use std::alloc::Global;
use std::sync::Wait;
use std::thread::Threads;
use steal_pool::OpenGate;

/// A tetrahedron without its last face.
pub const OPEN: &[u8] = b"v 0 0 0\nv 1 0 0\nv 0 1 0\nv 0 0 1\nf 1 3 2\nf 1 2 4\nf 1 4 3\n";

/// The first three lines of what `faces` writes of the tetrahedron.
pub const TETRA_LINES: &[u8] = b"ember 1\nf 0 0 -1 0 3\ne -1 0 0 0 0 0 0 1\n";

/// A shelf of `a.obj` none of whose calls fails, if there is memory for it.
pub fn safe_shelf(alloc: Global, bytes: &[u8]) -> Option<SafeShelf> {
    SafeShelf::new(alloc, file_set(alloc, &[("a.obj", bytes)])?).ok()
}

/// A shelf of `a.obj` that gives 16 bytes at a time, and whose call of that number fails.
pub fn failing_shelf(alloc: Global, bytes: &[u8], call: u64) -> Option<MemoryShelf> {
    let files = file_set(alloc, &[("a.obj", bytes)])?;
    MemoryShelf::new(alloc, files, 16, only(alloc, call)?).ok()
}

/// A sink that takes 10 bytes at a time, and whose call of that number fails.
pub fn failing_sink(alloc: Global, call: u64) -> Option<MemorySink> {
    MemorySink::new(alloc, 1000, 10, only(alloc, call)?).ok()
}

/// What the words of a line ask for, by `run_one` or by `run`.
pub fn answer<R: Threads + Wait + Sync, S: Shelf>(
    rt: &R,
    alone: bool,
    alloc: Global,
    line: &str,
    shelf: &mut S,
    out: &mut MemorySink,
    err: &mut MemorySink,
) -> Option<Status> {
    let words = words_of(alloc, line)?;
    if alone {
        return Some(run_one(alloc, &words, shelf, out, err, &OpenGate));
    }
    Some(run(rt, alloc, &words, shelf, out, err, &OpenGate))
}
