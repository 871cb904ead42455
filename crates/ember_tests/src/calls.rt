// Calls over devices in memory: words and files, and what comes of them.
use ember_io::{Calls, FileSet, MemoryShelf, MemorySink};
use ember_run::{Status, run, run_one};
use std::alloc::Global;
use std::sync::Wait;
use std::thread::Threads;
use steal_pool::OpenGate;

/// Files by their names.
pub type Named = &'static [(&'static str, &'static [u8])];

/// What a command gave.
#[derive(Drop)]
pub struct Given {
    pub status: Status,
    pub out: MemorySink,
    pub err: MemorySink,
}

/// These files, if there is memory for them.
pub fn file_set(alloc: Global, named: &[(&str, &[u8])]) -> Option<FileSet> {
    let mut files = Vec::new(alloc);
    for (name, bytes) in named {
        let name = String::from_str(alloc, name).ok()?;
        let bytes = Vec::from_slice(alloc, bytes).ok()?;
        files.push((name, bytes)).ok()?;
    }
    Some(FileSet::of(files))
}

/// The call of that number; calls count from 1.
pub fn only(alloc: Global, call: u64) -> Option<Calls> {
    Some(Calls::of(Vec::from_slice(alloc, &[call]).ok()?))
}

/// A shelf of these files, none of whose calls fails.
pub fn shelf_of(alloc: Global, named: &[(&str, &[u8])]) -> Option<MemoryShelf> {
    let none = Calls::of(Vec::new(alloc));
    MemoryShelf::new(alloc, file_set(alloc, named)?, 4096, none).ok()
}

/// A sink with room for so many bytes, none of whose calls fails before.
pub fn sink_of(alloc: Global, room: usize) -> Option<MemorySink> {
    let none = Calls::of(Vec::new(alloc));
    MemorySink::new(alloc, room, 4096, none).ok()
}

/// The words of a line, with one blank between each two.
pub fn words_of(alloc: Global, line: &str) -> Option<Vec<String>> {
    let mut words = Vec::new(alloc);
    for word in line.split(' ') {
        let word = String::from_str(alloc, word).ok()?;
        words.push(word).ok()?;
    }
    Some(words)
}

// What these words give over these files by `run`.
fn give_by_run<R: Threads + Wait + Sync>(
    rt: &R,
    alloc: Global,
    words: &[String],
    files: &[(&str, &[u8])],
) -> Option<Given> {
    let mut shelf = shelf_of(alloc, files)?;
    let mut out = sink_of(alloc, 100_000)?;
    let mut err = sink_of(alloc, 1000)?;
    let status = run(rt, alloc, words, &mut shelf, &mut out, &mut err, &OpenGate);
    Some(Given { status, out, err })
}

/// What these words give over these files by `run_one`, so by the calling thread alone.
pub fn give_alone(alloc: Global, words: &[String], files: &[(&str, &[u8])]) -> Option<Given> {
    let mut shelf = shelf_of(alloc, files)?;
    let mut out = sink_of(alloc, 100_000)?;
    let mut err = sink_of(alloc, 1000)?;
    let status = run_one(alloc, words, &mut shelf, &mut out, &mut err, &OpenGate);
    Some(Given { status, out, err })
}

/// A call ended like this, with these bytes on out and on err.
pub fn is_given(given: &Given, status: Status, out: &[u8], err: &[u8]) -> bool {
    given.status == status && given.out.bytes() == out && given.err.bytes() == err
}

/// Both give the same.
pub fn are_same(given: &Given, other: &Given) -> bool {
    given.status == other.status
        && given.out.bytes() == other.out.bytes()
        && given.err.bytes() == other.err.bytes()
}

/// What these words give over these files by `run`, if `run_one` gives the same.
pub fn give<R: Threads + Wait + Sync>(
    rt: &R,
    alloc: Global,
    words: &[String],
    files: &[(&str, &[u8])],
) -> Option<Given> {
    let given = give_by_run(rt, alloc, words, files)?;
    let alone = give_alone(alloc, words, files)?;
    if are_same(&given, &alone) {
        Some(given)
    } else {
        None
    }
}
