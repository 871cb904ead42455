// PLY files that are read, and their first faults.
use mesh_number::floor_times;
use mesh_ply::{PlyFault, read_ply};
use mesh_read::{Facet, Span, Surface};
use std::alloc::Global;
use std::test::Fail;

// Each file here is short enough.
fn read(alloc: Global, bytes: &[u8]) -> Result<Surface<'_>, PlyFault> {
    if bytes.len() > 268_435_456 {
        return Err(PlyFault::OutOfMemory);
    }
    read_ply(alloc, bytes)
}

// The numbers of vertices and triangles, or the fault.
fn count(alloc: Global, bytes: &[u8]) -> Result<(usize, usize), PlyFault> {
    match read(alloc, bytes) {
        Ok(surface) => Ok((surface.vertices.len(), surface.facets.len())),
        Err(fault) => Err(fault),
    }
}

static PLY_FILES_THAT_ARE_READ: [(&[u8], (usize, usize)); 6] = [
    (
        b"ply\nformat ascii 1.0\nelement vertex 3\nproperty float x\nproperty float y\nproperty float z\n\
        element face 1\nproperty list uchar int vertex_indices\nend_header\n0 0 0\n1 0 0\n0 1 0\n3 0 1 2\n",
        (3, 1),
    ),
    (
        b"ply\r\ncomment a\r\nobj_info b\r\nformat ascii 1.0\r\nelement nothing 99999999999999999999\r\n\
        element vertex 4\r\nproperty uchar red\r\nproperty float64 z\r\nproperty list uint8 float s\r\n\
        property float64 y\r\nproperty float64 x\r\nelement edge 1\r\nproperty int a\r\n\
        element face 1\r\nproperty list uchar int vertex_index\r\nend_header\r\n\
        9 0 2 .5 .5 0 0 7\r\n\r\n9 0 0 0 1\r\n9 0 1 7 1e-1 1\r\n9 0 0 -1 0\r\n5\r\n4 0 1 2 3 7\r\n",
        (4, 2),
    ),
    (
        b"ply\nformat binary_little_endian 1.0\nelement vertex 3\nproperty short x\nproperty char y\n\
        property double z\n\
        element face 1\nproperty list ushort uchar vertex_indices\n\
        property list char uint s\nend_header\n\x01\x00\xff\x00\x00\x00\x00\x00\x00\xf0\x3f\
        \x00\x01\x00\x00\x00\x00\x00\x00\x00\x00\x00\
        \x00\x00\x00\x00\x00\x00\x00\x00\x00\x00\x00\x03\x00\x00\x01\x02\x01\x0a\x0a\x0a\x0a",
        (3, 1),
    ),
    (
        b"ply\nformat binary_big_endian 1.0\nelement vertex 3\nproperty float x\nproperty uchar y\n\
        property uchar z\nelement face 1\nproperty list int ushort vertex_indices\nend_header\n\
        \x3f\x80\x00\x00\x00\x00\x00\x00\x00\x00\x01\x00\x00\x00\x00\x00\x00\x01\
        \x00\x00\x00\x03\x00\x00\x00\x01\x00\x02",
        (3, 1),
    ),
    (
        b"format ascii 1.0\nelement vertex 3\nproperty float x\nproperty float y\nproperty float z\n\
        element face 1\nproperty list uchar int vertex_indices\nend_header\n0 0 0\n1 0 0\n0 1 0\n3 2 2 2",
        (3, 1),
    ),
    (
        b"ply\ncomment of two lines,\nwith one word\nformat ascii 1.0\nformat_of nothing\nelement vertex 3\n\
        property float x\nproperty float y\nproperty float z\nelement face 1\n\
        property list uchar int vertex_indices\nend_header\n0 0 0\n1 0 0\n0 1 0\n3 0 1 2\n",
        (3, 1),
    ),
];

#[test]
fn ply_files_that_are_read(rt: HostRuntime) {
    for &(bytes, want) in &PLY_FILES_THAT_ARE_READ {
        assert!(rt; count(rt.alloc(), bytes) == Ok(want));
    }
}

static PLY_HEADERS_THAT_ARE_REFUSED: [(&[u8], PlyFault); 13] = [
    (b"", PlyFault::NoEnd),
    (b"ply\nformat ascii 1.0\n", PlyFault::NoEnd),
    (b"ply\nend\n", PlyFault::NoEnd),
    (b"ply\nelement vertex 1\nend\n", PlyFault::NotUnderstood(3)),
    (
        b"ply\nelemnt vertex 1\nproperty float x\n",
        PlyFault::NotUnderstood(3),
    ),
    (b"ply\nproperty float x\n", PlyFault::NotUnderstood(2)),
    (b"ply\nelement vertex -1\n", PlyFault::NotUnderstood(2)),
    (
        b"element vertex 1\nproperty half x\n",
        PlyFault::NotUnderstood(2),
    ),
    (b"ply\nend_header\n", PlyFault::NoFormat),
    (b"format binary 1.0\nend_header\n", PlyFault::NoFormat),
    (b"format ascii 1.0\nend_header\n", PlyFault::NoTriangles),
    (
        b"format ascii 1.0\nelement vertex 1\nproperty float x\nproperty float y\nend_header\n1 2 3\n",
        PlyFault::NoCoordinates,
    ),
    (
        b"format ascii 1.0\nelement face 1\nproperty list int int strips\nend_header\n0\n",
        PlyFault::NoCorners,
    ),
];

#[test]
fn ply_headers_that_are_refused(rt: HostRuntime) {
    for &(bytes, want) in &PLY_HEADERS_THAT_ARE_REFUSED {
        assert!(rt; count(rt.alloc(), bytes) == Err(want));
    }
}

static PLY_ROWS_THAT_ARE_REFUSED: [(&[u8], PlyFault); 6] = [
    (
        b"format ascii 1.0\nelement edge 2\nproperty int a\nend_header\n1\n",
        PlyFault::ShortRow(Span { start: 25, end: 29 }, 2),
    ),
    (
        b"format binary_big_endian 1.0\nelement edge 9999999999999999\nproperty list uint char a\nend_header\n\
        \xff\xff\xff\xff\x00",
        PlyFault::ShortRow(Span { start: 37, end: 41 }, 1),
    ),
    (
        b"format binary_little_endian 1.0\nelement vertex 1\nproperty char x\nproperty char y\nproperty float z\n\
        end_header\n\x00\x00\x00\x00\x80\x7f",
        PlyFault::NotFinite(1),
    ),
    (
        b"format ascii 1.0\nelement face 1\nproperty list int int vertex_index\nend_header\n1 0\n",
        PlyFault::NoSuchVertex(1),
    ),
    (
        b"format ascii 1.0\nelement face 1\nproperty list int int vertex_index\nend_header\n0\n",
        PlyFault::FewCorners(1),
    ),
    (
        b"format ascii 1.0\nelement vertex 1\nproperty int x\nproperty int y\nproperty int z\n\
        element face 2\nproperty list int int vertex_index\nend_header\n0 -1e15 0\n3 0 0 0\n3 0 0 0\n",
        PlyFault::TooLarge(1),
    ),
];

#[test]
fn ply_rows_that_are_refused(rt: HostRuntime) {
    for &(bytes, want) in &PLY_ROWS_THAT_ARE_REFUSED {
        assert!(rt; count(rt.alloc(), bytes) == Err(want));
    }
}

#[test]
fn a_ply_face_of_four_corners(rt: HostRuntime) -> Result<(), Fail> {
    let bytes =
        b"format binary_little_endian 1.0\nelement vertex 4\nproperty float x\nproperty char y\n\
        property char z\nelement face 1\nproperty list char char vertex_index\nend_header\n\
        \x00\x00\xa0\x3f\x00\xfe\
        \x00\x00\x00\x00\x00\x00\x00\x00\x00\x00\x00\x00\x00\x00\x00\x00\x00\x00\x04\x01\x02\x03\x00";
    let Ok(surface) = read(rt.alloc(), bytes) else {
        return Err(Fail::from("refused"));
    };
    let want = [[1, 2, 3], [1, 3, 0]];
    for (found, corners) in surface.facets.iter().zip(want) {
        assert!(rt; *found == (Facet { corners, place: 1 }));
    }
    let Some(vertex) = surface.vertices.get(0) else {
        return Err(Fail::from("no vertex"));
    };
    assert!(rt; floor_times(&vertex.x, 100) == Some(125));
    assert!(rt; floor_times(&vertex.z, 1) == Some(-2));
    Ok(())
}
