// Devices that fail, and files that are never begun.
use crate::calls::{Given, is_given};
use crate::files::{OPEN, TETRA_LINES, answer, failing_shelf, failing_sink, safe_shelf};
use crate::texts::TETRA;
use ember_io::Shelf;
use ember_run::Status;
use std::alloc::Global;
use std::sync::Wait;
use std::thread::Threads;

// What a line gives over a shelf, with an output whose call of that number fails, by `run_one` or by `run`.
fn given_by<R: Threads + Wait + Sync, S: Shelf>(
    rt: &R,
    alone: bool,
    alloc: Global,
    line: &str,
    shelf: &mut S,
    call: u64,
) -> Option<Given> {
    let mut out = failing_sink(alloc, call)?;
    let mut err = failing_sink(alloc, 0)?;
    let status = answer(rt, alone, alloc, line, shelf, &mut out, &mut err)?;
    Some(Given { status, out, err })
}

// Whether a line ends like this there, and writes these bytes and this line on err.
fn answers<R: Threads + Wait + Sync, S: Shelf>(
    rt: &R,
    alone: bool,
    alloc: Global,
    line: &str,
    shelf: &mut S,
    call: u64,
    want: (Status, &[u8], &[u8]),
) -> bool {
    let (status, out, err) = want;
    match given_by(rt, alone, alloc, line, shelf, call) {
        Some(given) => is_given(&given, status, out, err),
        None => false,
    }
}

// Whether a file that can't be read is told like this, over a shelf whose call of that number fails.
fn is_read_fault<R: Threads + Wait + Sync>(
    rt: &R,
    alone: bool,
    alloc: Global,
    line: &str,
    call: u64,
    want: (u32, &[u8]),
) -> bool {
    let (file, message) = want;
    let want: (Status, &[u8], &[u8]) = (Status::ReadFault(file), b"", message);
    match failing_shelf(alloc, TETRA, call) {
        Some(mut shelf) => answers(rt, alone, alloc, line, &mut shelf, 0, want),
        None => false,
    }
}

const FIRST: &[u8] = b"ember: cannot read a.obj\n";

const UNKNOWN: &[u8] = b"ember: cannot read b.obj\n";

const SECOND: &[u8] = b"ember: cannot read none.obj\n";

// Lines, the call of the shelf that fails (0: none), and the number of the file and the line on err.
static READ_FAULTS: [(&str, u64, u32, &[u8]); 5] = [
    ("faces a.obj", 3, 1, FIRST),
    ("at --point 1,2,3,16 a.obj", 3, 1, FIRST),
    ("faces b.obj", 0, 1, UNKNOWN),
    ("at --point 1,2,3,16 b.obj", 0, 1, UNKNOWN),
    ("at --point 1,2,3,16 a.obj none.obj", 0, 2, SECOND),
];

#[test]
fn failing_shelves_are_read_faults(rt: HostRuntime) {
    for &(line, call, file, message) in &READ_FAULTS {
        assert!(rt; is_read_fault(&rt, false, rt.alloc(), line, call, (file, message)));
        assert!(rt; is_read_fault(&rt, true, rt.alloc(), line, call, (file, message)));
    }
}

// Whether an output whose call of that number fails has taken these bytes before, and is told.
fn is_write_fault<R: Threads + Wait + Sync>(
    rt: &R,
    alone: bool,
    alloc: Global,
    line: &str,
    call: u64,
    taken: &[u8],
) -> bool {
    let want: (Status, &[u8], &[u8]) = (Status::WriteFault, taken, b"ember: cannot write\n");
    match safe_shelf(alloc, TETRA) {
        Some(mut shelf) => answers(rt, alone, alloc, line, &mut shelf, call, want),
        None => false,
    }
}

static WRITE_FAULTS: [(&str, u64, &[u8]); 2] = [
    ("faces a.obj", 5, TETRA_LINES),
    ("at --point 1,2,3,16 a.obj", 1, b""),
];

#[test]
fn failing_sinks_are_write_faults(rt: HostRuntime) {
    for &(line, call, taken) in &WRITE_FAULTS {
        assert!(rt; is_write_fault(&rt, false, rt.alloc(), line, call, taken));
        assert!(rt; is_write_fault(&rt, true, rt.alloc(), line, call, taken));
    }
}

fn is_open_mesh(given: &Given) -> bool {
    let message = b"ember: a.obj: edge 0 0 1 to 0 1 0 stands 1 times and 0 times reversed\n";
    matches!(&given.status, Status::MeshRefused(1, _)) && given.err.bytes() == message.as_slice()
}

// Whether a mesh that isn't closed is told, and not that the file behind it can't be read.
fn is_refused<R: Threads + Wait + Sync>(rt: &R, alone: bool, alloc: Global) -> Option<bool> {
    let line = "at --point 1,2,3,16 a.obj none.obj";
    let mut shelf = failing_shelf(alloc, OPEN, 0)?;
    let given = given_by(rt, alone, alloc, line, &mut shelf, 0)?;
    Some(is_open_mesh(&given))
}

#[test]
fn a_file_after_a_refusal_is_never_begun(rt: HostRuntime) {
    assert!(rt; is_refused(&rt, false, rt.alloc()) == Some(true));
    assert!(rt; is_refused(&rt, true, rt.alloc()) == Some(true));
}
