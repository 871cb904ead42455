// OFF files that are read, and their first faults.
use mesh_number::floor_times;
use mesh_read::{Facet, OffFault, Span, Surface, read_off};
use std::alloc::Global;
use std::test::Fail;

// Each file here is short enough.
fn read(alloc: Global, bytes: &[u8]) -> Result<Surface<'_>, OffFault> {
    if bytes.len() > 268_435_456 {
        return Err(OffFault::OutOfMemory);
    }
    read_off(alloc, bytes)
}

// The numbers of vertices and triangles, or the fault.
fn count(alloc: Global, bytes: &[u8]) -> Result<(usize, usize), OffFault> {
    match read(alloc, bytes) {
        Ok(surface) => Ok((surface.vertices.len(), surface.facets.len())),
        Err(fault) => Err(fault),
    }
}

static OFF_FILES_THAT_ARE_READ: [(&[u8], (usize, usize)); 12] = [
    (b"OFF\n3 1 0\n0 0 0\n1 0 0\n0 1 0\n3 0 1 2\n", (3, 1)),
    (b"off 3 1\n0 0 0\n1 0 0\n0 1 0\n3 0 1 2", (3, 1)),
    (
        b"# a\n\nCoFF # b\r\n# c\r\n3 1 0 # d\r\n0 0 0 9 9\r\n\r\n1 0 0\r\n0 1 0\r\n3 0 1 2 7 7\r\n",
        (3, 1),
    ),
    (
        b"NOFF\n4 1\n0 0 0\n1 0 0\n1 1 0\n0 1 0\n4 0 1 2 3\n",
        (4, 2),
    ),
    (
        b"OFF\n3 1\n0 0 0\n1 0 0\n0 1 0\n3 0 1 2\nand more\n",
        (3, 1),
    ),
    (b"OFF\n3 1\n0 0 0\n1 0 0\n0 1 0\n3 2 2 2\n", (3, 1)),
    (
        b"OFF\n003 01\n-1.5e3 .5 5.\n1 0 0\n0 1 0\n03 00 01 02\n",
        (3, 1),
    ),
    (
        b"OFF\n4 1\n0 0 0\n1 0 0\n0 1 0\n1e15 0 0\n3 0 1 2\n",
        (4, 1),
    ),
    (
        b"\xEF\xBB\xBF\n# a\nSTOFF 3 1\n0 0 0 .5 .5\n1 0 0 0 0\n0 1 0 1 1\n3 0 1 2\n",
        (3, 1),
    ),
    (b"stCnoff 3 1\n0 0 0\n1 0 0\n0 1 0\n3 0 1 2\n", (3, 1)),
    (b"3 1 3\n0 0 0\n1 0 0\n0 1 0\n3 0 1 2\n", (3, 1)),
    (b"\xEF\xBB\xBF03 1\n0 0 0\n1 0 0\n0 1 0\n3 0 1 2\n", (3, 1)),
];

#[test]
fn off_files_that_are_read(rt: HostRuntime) {
    for &(bytes, want) in &OFF_FILES_THAT_ARE_READ {
        assert!(rt; count(rt.alloc(), bytes) == Ok(want));
    }
}

static OFF_FILES_THAT_ARE_REFUSED: [(&[u8], OffFault); 27] = [
    (b"", OffFault::NoOff),
    (b"# OFF\n", OffFault::NoOff),
    (b"OFFS 3 1\n", OffFault::NoOff),
    (b"NCOFF 3 1\n", OffFault::NoOff),
    (b"CSTOFF 3 1\n", OffFault::NoOff),
    (b"\xEF\xBB 3 1\n", OffFault::NoOff),
    (b"-3 1 0\n", OffFault::NoOff),
    (b"# a\n\n4OFF 3 1\n", OffFault::MoreCoordinates(3)),
    (b"STn4off\n", OffFault::MoreCoordinates(1)),
    (b"3 1 0\n", OffFault::FewLines),
    (b"3\n1 0\n", OffFault::NoCounts),
    (b"OFF", OffFault::NoCounts),
    (b"OFF 3", OffFault::NoCounts),
    (b"OFF 3\n1\n", OffFault::NoCounts),
    (b"OFF\n3 -1\n", OffFault::NoCounts),
    (b"OFF\n3 1\n0 0 0\n1 0 0\n0 1 0\n", OffFault::FewLines),
    (b"OFF\n3 1\nx\n1 0 0\n0 1 0\n", OffFault::FewLines),
    (b"OFF\n99999999999999999999 1\n0 0 0\n", OffFault::FewLines),
    (b"OFF 1 0\n1 2\n", OffFault::FewCoordinates(2)),
    (
        b"OFF 1 0\n0 nan 1.2.3\n",
        OffFault::NotANumber(2, Span { start: 10, end: 13 }),
    ),
    (
        b"\xEF\xBB\xBFOFF 1 0\n0 nan 0\n",
        OffFault::NotANumber(2, Span { start: 13, end: 16 }),
    ),
    (b"OFF 3 1\n0 0 0\n1 0 0\n0 1 0\n2 0 1\n", OffFault::Face(5)),
    (
        b"OFF 3 1\n0 0 0\n1 0 0\n0 1 0\n3 0 1 3\n",
        OffFault::Face(5),
    ),
    (b"OFF 3 1\n0 0 0\n1 0 0\n0 1 0\n3 0 1\n", OffFault::Face(5)),
    (
        b"OFF 3 1\n0 0 0\n1 0 0\n0 1 0\n99999999999999999999 0 1 2\n",
        OffFault::Face(5),
    ),
    (b"OFF 3 0\n0 0 0\n1 0 0\n0 1 0\n", OffFault::NoTriangles),
    (
        b"OFF 4 2\n0 0 0\n1 0 0\n0 1 0\n0 -1e15 0\n3 0 1 2\n3 0 1 3\n",
        OffFault::TooLarge(7),
    ),
];

#[test]
fn off_files_that_are_refused(rt: HostRuntime) {
    for &(bytes, want) in &OFF_FILES_THAT_ARE_REFUSED {
        assert!(rt; count(rt.alloc(), bytes) == Err(want));
    }
}

#[test]
fn an_off_face_of_four_corners(rt: HostRuntime) -> Result<(), Fail> {
    let bytes = b"OFF\n4 1\n0 0 0\n1.25 0 0\n1 1 0\n0 1 0\n4 1 2 3 0\n";
    let Ok(surface) = read(rt.alloc(), bytes) else {
        return Err(Fail::from("refused"));
    };
    let want = [[1, 2, 3], [1, 3, 0]];
    for (found, corners) in surface.facets.iter().zip(want) {
        assert!(rt; *found == (Facet { corners, place: 7 }));
    }
    let Some(vertex) = surface.vertices.get(1) else {
        return Err(Fail::from("no vertex"));
    };
    assert!(rt; floor_times(&vertex.x, 100) == Some(125));
    Ok(())
}
