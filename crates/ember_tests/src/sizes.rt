// Limits of size.
use crate::calls::{Given, give, words_of};
use std::alloc::{AllocError, Global};
use std::sync::Wait;
use std::test::Fail;
use std::thread::Threads;

// Four vertices, and then the faces of their tetrahedron so many times.
fn many(alloc: Global, times: u32) -> Result<Vec<u8>, AllocError> {
    let mut bytes = Vec::from_slice(alloc, b"v 0 0 0\nv 1 0 0\nv 0 1 0\nv 0 0 1\n")?;
    for _ in 0..times {
        bytes.extend_from_slice(b"f 1 3 2\nf 1 2 4\nf 1 4 3\nf 2 3 4\n")?;
    }
    Ok(bytes)
}

// A call has this status and this line, and has written nothing.
fn is_told(given: &Given, status: u8, line: &[u8]) -> bool {
    given.status.number() == status && given.err.bytes() == line && given.out.bytes().is_empty()
}

// Whether the words are refused with this status and this line, and nothing is written.
fn is_refused<R: Threads + Wait + Sync>(
    rt: &R,
    alloc: Global,
    words: &[String],
    file: (&str, &[u8]),
    status: u8,
    line: &[u8],
) -> bool {
    match give(rt, alloc, words, &[file]) {
        Some(given) => is_told(&given, status, line),
        None => false,
    }
}

#[test]
fn too_many_triangles(rt: HostRuntime) -> Result<(), Fail> {
    let alloc = rt.alloc();
    let bytes = many(alloc, 25_000)?;
    let file = ("many.obj", bytes.as_slice());
    let message = b"ember: 300000 triangles\n";
    for line in [
        "bool --expr m1 many.obj many.obj many.obj",
        "at --point 1,2,3,16 many.obj many.obj many.obj",
    ] {
        let words = words_of(alloc, line).ok_or("no words")?;
        assert!(rt; is_refused(&rt, alloc, &words, file, 9, message));
    }
    Ok(())
}

#[test]
fn a_line_that_is_too_long(rt: HostRuntime) -> Result<(), Fail> {
    let alloc = rt.alloc();
    let mut bytes = Vec::from_slice(alloc, b"v 0 0 0")?;
    bytes.resize(65_537, b' ')?;
    let words = words_of(alloc, "faces a.obj").ok_or("no words")?;
    let message = b"ember: a.obj: line 1: long line\n";
    assert!(rt; is_refused(&rt, alloc, &words, ("a.obj", bytes.as_slice()), 5, message));
    Ok(())
}
