// OBJ files with any decimals that are read, and their first faults.
use mesh_number::floor_times;
use mesh_read::{Facet, Surface, WavefrontFault, read_wavefront};
use std::alloc::Global;
use std::test::Fail;

// Each file here is short enough.
fn read(alloc: Global, bytes: &[u8]) -> Result<Surface<'_>, WavefrontFault<'_>> {
    if bytes.len() > 268_435_456 {
        return Err(WavefrontFault::OutOfMemory);
    }
    read_wavefront(alloc, bytes)
}

// The numbers of vertices and triangles, or the fault.
fn count(alloc: Global, bytes: &[u8]) -> Result<(usize, usize), WavefrontFault<'_>> {
    match read(alloc, bytes) {
        Ok(surface) => Ok((surface.vertices.len(), surface.facets.len())),
        Err(fault) => Err(fault),
    }
}

static WAVEFRONT_FILES_THAT_ARE_READ: [(&[u8], (usize, usize)); 9] = [
    (b"v 0 0 0\nv 1 0 0\nv 0 1 0\nf 1 2 3\n", (3, 1)),
    (b"v 0 0 0\nv 1 0 0\nv 0 1 0\nf 1 2 3", (3, 1)),
    (
        b"\xEF\xBB\xBFv 0 0 0 1\r\n\r\nv 1e-3 -.5E+2 5. # a\r\nv\t0 +1 0\r\nf 1 2 3\r\n",
        (3, 1),
    ),
    (
        b"mtllib a.mtl\no a\nvt 0 0\nvn 0 0 1\nV x\nv 0 0 0\nv 1 0 0\nv 0 1 0\ns off\nf 1/1/1 2//1 3/1\n",
        (3, 1),
    ),
    (
        b"v 0 0 0\nv 1 0 0\nf -1 -2 1 \\\n-1/2 \\\r\n  2\nf 1 1 1\n",
        (2, 4),
    ),
    (b"v 0\\\n0\\\n0\nf 1 1\\\n1", (1, 1)),
    (b"v 0 0 0 \\\nf 1 1 1\nf 1 1 1 \\", (1, 1)),
    (b"v 0 0 0 # \\\nf 1 01 000000000000000000001\n", (1, 1)),
    (b"v 1e15 0 0\nv 0 0 0\nf 2 2 2\n", (2, 1)),
];

#[test]
fn wavefront_files_that_are_read(rt: HostRuntime) {
    for &(bytes, want) in &WAVEFRONT_FILES_THAT_ARE_READ {
        assert!(rt; count(rt.alloc(), bytes) == Ok(want));
    }
}

static WAVEFRONT_VERTICES_THAT_ARE_REFUSED: [(&[u8], WavefrontFault); 7] = [
    (b"", WavefrontFault::NoTriangles),
    (b"v 0 0 0\n", WavefrontFault::NoTriangles),
    (b"\nv 0 0\n", WavefrontFault::FewCoordinates(2)),
    (b"v 0 0 # 0\n", WavefrontFault::FewCoordinates(1)),
    (
        b"v 0 0 0\r\nv 1 nan x\r\n",
        WavefrontFault::NotANumber(2, b"nan"),
    ),
    (
        b"v 0 0 0\n\nv \\\n0 \\\n0x1 0\n",
        WavefrontFault::NotANumber(3, b"0x1"),
    ),
    (
        b"v 0 0 0\nv 0 -1e15 0\nf 1 1 1\nf 1 \\\n1 2\n",
        WavefrontFault::TooLarge(4),
    ),
];

#[test]
fn wavefront_vertices_that_are_refused(rt: HostRuntime) {
    for &(bytes, want) in &WAVEFRONT_VERTICES_THAT_ARE_REFUSED {
        assert!(rt; count(rt.alloc(), bytes) == Err(want));
    }
}

static WAVEFRONT_FACES_THAT_ARE_REFUSED: [(&[u8], WavefrontFault); 9] = [
    (
        b"f 1 1 1\nv 0 0 0\n",
        WavefrontFault::UnknownVertex(1, b"1"),
    ),
    (
        b"v 0 0 0\nf 1 1 1\nf 1 2/1/1 x\n",
        WavefrontFault::UnknownVertex(3, b"2/1/1"),
    ),
    (
        b"v 0 0 0\nf 1 -2 1\n",
        WavefrontFault::UnknownVertex(2, b"-2"),
    ),
    (
        b"v 0 0 0\nf 0 1 1\n",
        WavefrontFault::UnknownVertex(2, b"0"),
    ),
    (
        b"v 0 0 0\nf +1 1 1\n",
        WavefrontFault::UnknownVertex(2, b"+1"),
    ),
    (
        b"v 0 0 0\nf /1 1 1\n",
        WavefrontFault::UnknownVertex(2, b"/1"),
    ),
    (
        b"v 0 0 0\nf 1 1 99999999999999999999\n",
        WavefrontFault::UnknownVertex(2, b"99999999999999999999"),
    ),
    (b"v 0 0 0\nf 1 1\n", WavefrontFault::FewCorners(2)),
    (b"v 0 0 0\nf\nv x\n", WavefrontFault::FewCorners(2)),
];

#[test]
fn wavefront_faces_that_are_refused(rt: HostRuntime) {
    for &(bytes, want) in &WAVEFRONT_FACES_THAT_ARE_REFUSED {
        assert!(rt; count(rt.alloc(), bytes) == Err(want));
    }
}

#[test]
fn a_wavefront_face_of_four_corners(rt: HostRuntime) -> Result<(), Fail> {
    let bytes = b"v 0 0 0\nv 1.25 0 0\nv 1 1 0\nv 0 1 0\n\nf 2 3 -1 -4\n";
    let Ok(surface) = read(rt.alloc(), bytes) else {
        return Err(Fail::from("refused"));
    };
    let want = [[1, 2, 3], [1, 3, 0]];
    for (found, corners) in surface.facets.iter().zip(want) {
        assert!(rt; *found == (Facet { corners, place: 6 }));
    }
    let Some(vertex) = surface.vertices.get(1) else {
        return Err(Fail::from("no vertex"));
    };
    assert!(rt; floor_times(&vertex.x, 100) == Some(125));
    Ok(())
}
