// Mesh files of all formats that are read, and the reason that names no place in a file.
use mesh_file::{FileFault, put_reason, read_file};
use mesh_read::Surface;
use std::alloc::Global;
use std::test::Fail;

// A binary STL of one facet, all of whose coordinates are 0.
fn facet() -> [u8; 134] {
    let mut bytes = [0; 134];
    bytes[80] = 1;
    bytes
}

// Each file here is short enough.
fn read<'a>(alloc: Global, name: &[u8], bytes: &'a [u8]) -> Result<Surface<'a>, FileFault<'a>> {
    if bytes.len() > 268_435_456 {
        return Err(FileFault::OutOfMemory);
    }
    read_file(alloc, name, bytes)
}

// The numbers of vertices and triangles, or the fault.
fn count<'a>(alloc: Global, name: &[u8], bytes: &'a [u8]) -> Result<(usize, usize), FileFault<'a>> {
    match read(alloc, name, bytes) {
        Ok(surface) => Ok((surface.vertices.len(), surface.facets.len())),
        Err(fault) => Err(fault),
    }
}

static FILES_OF_EACH_FORMAT: [(&[u8], &[u8], (usize, usize)); 7] = [
    (
        b"a.obj",
        b"solid\nfacet\nvertex 0 0 0\nvertex 1 0 0\nvertex 0 1 0\nendfacet\nendsolid\n",
        (3, 1),
    ),
    (
        b"a.stl",
        b"ply\nformat ascii 1.0\nelement vertex 2\nproperty int x\nproperty int y\nproperty int z\n\
element face 1\nproperty list uchar int vertex_index\nend_header\n0 0 0\n1 0 0\n4 0 1 0 1\n",
        (2, 2),
    ),
    (b"a.stl", b"OFF 1 1 0\n0 0 0\n3 0 0 0\n", (1, 1)),
    (b"a.off", b"v 0 0 0\nv 1 0 0\nv 0 1 0\nf 1 2 3\n", (3, 1)),
    (b"", b"v 0 0 0\nf 1 1 1 1 1\n", (1, 3)),
    (b"a.obj", b"v 0 0 0\nf 1 1 1\n", (1, 1)),
    // It begins as a page, but has a face.
    (b"a.html", b"<html>\nv 0 0 0\nf 1 1 1\n", (1, 1)),
];

#[test]
fn files_of_each_format_are_read(rt: HostRuntime) {
    assert!(rt; count(rt.alloc(), b"a.obj", &facet()) == Ok((3, 1)));
    for &(name, bytes, want) in &FILES_OF_EACH_FORMAT {
        assert!(rt; count(rt.alloc(), name, bytes) == Ok(want));
    }
}

#[test]
fn out_of_memory_has_no_place(rt: HostRuntime) -> Result<(), Fail> {
    let mut text = String::new(rt.alloc());
    put_reason(b"", &FileFault::OutOfMemory, &mut text)?;
    assert!(rt; text.as_str() == "out of memory");
    Ok(())
}
