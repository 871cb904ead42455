// Face files that are read back.
use crate::shapes::plane;
use crate::texts::TETRA_TEXT;
use ember_reread::{RereadFault, read_faces};
use std::alloc::{AllocError, Global};
use std::test::Fail;

// The number of faces, or the fault.
fn count(alloc: Global, bytes: &[u8]) -> Result<usize, RereadFault> {
    match read_faces(alloc, bytes) {
        Ok(faces) => Ok(faces.items().len()),
        Err(fault) => Err(fault),
    }
}

#[test]
fn the_last_face_of_a_tetrahedron(rt: HostRuntime) -> Result<(), Fail> {
    let Ok(faces) = read_faces(rt.alloc(), TETRA_TEXT) else {
        return Err(Fail::from("refused"));
    };
    let faces = faces.items();
    assert!(rt; faces.len() == 4);
    assert!(rt; faces[3].support == plane([1, 1, 1, 1]));
    let planes = [
        plane([0, 0, -1, 0]),
        plane([0, 1, 1, 1]),
        plane([0, -1, 0, 0]),
    ];
    assert!(rt; faces[3].edges.items() == planes.as_slice());
    Ok(())
}

static WHOLE_FILES: [(&[u8], Result<usize, RereadFault>); 9] = [
    (b"ember 1\nend 0\n", Ok(0)),
    (b"", Err(RereadFault::Form)),
    (b"ember 1\n", Err(RereadFault::Form)),
    (b"ember 2\nend 0\n", Err(RereadFault::Form)),
    (b"ember 1\nend 0", Err(RereadFault::Form)),
    (b"ember 1\nend 00\n", Err(RereadFault::Form)),
    (b"ember 1\nend 0\n\n", Err(RereadFault::Form)),
    (b"ember 1\nend 5\n", Err(RereadFault::Form)),
    (
        b"ember 1\nf 0 0 1 0 2\ne -1 0 0 0 0 0 0 1\ne 1 1 0 1 0 1 0 1\nend 1\n",
        Err(RereadFault::Form),
    ),
];

#[test]
fn whole_files(rt: HostRuntime) {
    for &(bytes, want) in &WHOLE_FILES {
        assert!(rt; count(rt.alloc(), bytes) == want);
    }
    let cut = &TETRA_TEXT[..TETRA_TEXT.len() - 1];
    assert!(rt; count(rt.alloc(), cut) == Err(RereadFault::Form));
}

// A file of one face with this first line, and with this first edge plane and corner.
fn file(alloc: Global, support: &[u8], edge: &[u8], faces: &[u8]) -> Result<Vec<u8>, AllocError> {
    let mut text = Vec::from_slice(alloc, b"ember 1\nf ")?;
    text.extend_from_slice(support)?;
    text.extend_from_slice(b"\ne ")?;
    text.extend_from_slice(edge)?;
    text.extend_from_slice(b"\ne 1 1 0 1 0 1 0 1\ne 0 -1 0 0 1 0 0 1\nend ")?;
    text.extend_from_slice(faces)?;
    text.extend_from_slice(b"\n")?;
    Ok(text)
}

// Whether the file is taken, as one of one face.
fn is_taken(alloc: Global, support: &[u8], edge: &[u8], faces: &[u8]) -> Result<bool, Fail> {
    match count(alloc, &file(alloc, support, edge, faces)?) {
        Ok(1) => Ok(true),
        Err(RereadFault::Form) => Ok(false),
        _ => Err(Fail::from("another answer")),
    }
}

static NUMBERS_OF_PLANES_AND_OF_FACES: [(&[u8], &[u8], bool); 15] = [
    (b"0 0 -1 0 3", b"1", true),
    (b"0 0 -01 0 3", b"1", false),
    (b"0 0 -0 0 3", b"1", false),
    (b"0 0 +1 0 3", b"1", false),
    (b"0 0 - 0 3", b"1", false),
    (b"0 0  0 3", b"1", false),
    (b"0 0 -1 0 4", b"1", false),
    (b"0 0 -1 0 03", b"1", false),
    (b"0 0 -1 0 -3", b"1", false),
    (b"0 0 -1 0 3 ", b"1", false),
    (
        b"0 0 -1 0 99999999999999999999999999999999999999999",
        b"1",
        false,
    ),
    (b"33554431 0 -33554431 549755813887 3", b"1", true),
    (b"33554432 0 0 0 3", b"1", false),
    (b"0 0 -1 -549755813888 3", b"1", false),
    (b"0 0 -1 0 3", b"2", false),
];

#[test]
fn numbers_of_planes_and_of_faces(rt: HostRuntime) -> Result<(), Fail> {
    for &(support, faces, want) in &NUMBERS_OF_PLANES_AND_OF_FACES {
        assert!(rt; is_taken(rt.alloc(), support, b"-1 0 0 0 0 0 0 1", faces)? == want);
    }
    Ok(())
}

static NUMBERS_OF_CORNERS: [(&[u8], bool); 9] = [
    (b"-1 0 0 0 0 0 0 1", true),
    (b"-1 0 0 0 0 0 0 2", false),
    (b"-1 0 0 0 3 0 6 2", true),
    (b"-1 0 0 0 3 0 6 9", false),
    (b"-1 0 0 0 0 0 0 0", false),
    (b"-1 0 0 0 1 0 0 -1", false),
    (
        b"-1 0 0 0 4951760157141521099596496895 1 0 302231454903657293676543",
        true,
    ),
    (b"-1 0 0 0 4951760157141521099596496896 0 0 1", false),
    (b"-1 0 0 0 1 0 0 302231454903657293676544", false),
];

#[test]
fn numbers_of_corners(rt: HostRuntime) -> Result<(), Fail> {
    for &(edge, want) in &NUMBERS_OF_CORNERS {
        assert!(rt; is_taken(rt.alloc(), b"0 0 -1 0 3", edge, b"1")? == want);
    }
    Ok(())
}
