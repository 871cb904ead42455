// Every prefix of a file.
use crate::files::{answer, failing_sink, safe_shelf};
use crate::texts::TETRA;
use ember_obj::ObjFault;
use ember_run::Status;
use std::alloc::Global;
use std::sync::Wait;
use std::thread::Threads;

// The answer of the reading at the first so many bytes; each line of the file has eight.
fn reading_of(bytes: u32) -> Status {
    let line = bytes / 8 + 1;
    let cut = bytes % 8;
    if cut == 0 || cut == 7 {
        Status::Done
    } else if line <= 4 {
        Status::ObjRefused(1, ObjFault::Word(line))
    } else {
        Status::ObjRefused(1, ObjFault::FewCorners(line))
    }
}

// The end of what is written of so many bytes: the file has the faces of its whole lines, the last
// of them with or without its line feed.
fn ending_of(bytes: u32) -> &'static [u8] {
    match bytes.saturating_add(1) / 8 {
        5 => b"\nend 1\n",
        6 => b"\nend 2\n",
        7 => b"\nend 3\n",
        8 => b"\nend 4\n",
        _ => b"\nend 0\n",
    }
}

// What `faces` and then `at` answer over the first so many bytes of the file, by `run_one` or by `run`, and whether
// `faces` has written the end that it should.
fn answers_of<R: Threads + Wait + Sync>(
    rt: &R,
    alloc: Global,
    alone: bool,
    bytes: u32,
) -> Option<(Status, bool, Status)> {
    let end = TETRA.len().min(bytes as usize);
    let mut shelf = safe_shelf(alloc, &TETRA[..end])?;
    let mut out = failing_sink(alloc, 0)?;
    let mut err = failing_sink(alloc, 0)?;
    let line = "faces a.obj";
    let faces = answer(rt, alone, alloc, line, &mut shelf, &mut out, &mut err)?;
    let is_written = out.bytes().ends_with(ending_of(bytes));
    let line = "at --point 1,2,3,16 a.obj";
    let at = answer(rt, alone, alloc, line, &mut shelf, &mut out, &mut err)?;
    Some((faces, is_written, at))
}

// Whether these are the right answers. A mesh that lacks faces is open.
fn are_right(bytes: u32, faces: Status, is_written: bool, at: Status) -> bool {
    let wanted = reading_of(bytes);
    let is_point_right = if wanted == Status::Done && bytes > 38 && bytes < 63 {
        matches!(&at, Status::MeshRefused(1, _))
    } else {
        at == wanted
    };
    faces == wanted && is_written == (wanted == Status::Done) && is_point_right
}

fn are_answers_right<R: Threads + Wait + Sync>(
    rt: &R,
    alloc: Global,
    alone: bool,
    bytes: u32,
) -> bool {
    match answers_of(rt, alloc, alone, bytes) {
        Some((faces, is_written, at)) => are_right(bytes, faces, is_written, at),
        None => false,
    }
}

#[test]
fn every_prefix_is_read_or_refused(rt: HostRuntime) {
    for bytes in 0..65u32 {
        assert!(rt; are_answers_right(&rt, rt.alloc(), false, bytes));
        assert!(rt; are_answers_right(&rt, rt.alloc(), true, bytes));
    }
}
