// OBJ files that are read, and their first faults.
use crate::texts::TETRA_OBJ;
use ember_dec::DecFault;
use ember_model::{Corner, Soup, Tri};
use ember_obj::{ObjFault, read_obj};
use std::alloc::Global;
use std::process::Abort;
use std::test::Fail;

// The triangles of a file of mesh 1, in whole units. Each file here is short enough.
fn read(alloc: Global, bytes: &[u8]) -> Result<Soup, ObjFault> {
    if bytes.len() > 268_435_456 {
        return Err(ObjFault::OutOfMemory);
    }
    read_obj(alloc, bytes, 0, 1)
}

// The number of triangles, or the fault.
fn count(alloc: Global, bytes: &[u8]) -> Result<usize, ObjFault> {
    match read(alloc, bytes) {
        Ok(soup) => Ok(soup.tris.items().len()),
        Err(fault) => Err(fault),
    }
}

static FILES_THAT_MEAN_HARM: [(&[u8], Result<usize, ObjFault>); 14] = [
    (b"v 1 2", Err(ObjFault::Word(1))),
    (b"f", Err(ObjFault::FewCorners(1))),
    (b"v 0 0 0\\", Ok(0)),
    (
        b"v 0 0 0\nf 99999999999999999999 1 1",
        Err(ObjFault::Index(2)),
    ),
    (
        b"v 0 0 0\nf -99999999999999999999 1 1",
        Err(ObjFault::Index(2)),
    ),
    (b"v 0 0 0\nf - 1 1", Err(ObjFault::Word(2))),
    (b"v 0 0 0\nf /1 1 1", Err(ObjFault::Word(2))),
    (
        b"v 1e2 0 0",
        Err(ObjFault::Coordinate(1, DecFault::Malformed)),
    ),
    (b"v 00000000000000000000000000000007 0 0", Ok(0)),
    (
        b"v 2047.9 0 0",
        Err(ObjFault::Coordinate(1, DecFault::Fraction)),
    ),
    (
        b"# a \\\nv x 0 0",
        Err(ObjFault::Coordinate(2, DecFault::Malformed)),
    ),
    (b"v 0 0 \\\n0\nf 1 1 2", Err(ObjFault::Index(3))),
    (b"V 0 0 0\nf 1 1 1", Err(ObjFault::Index(2))),
    (b"\xEF\xBB\xBFv 1 1 1\nf 1 1 1", Ok(1)),
];

#[test]
fn files_that_mean_harm(rt: HostRuntime) {
    for &(bytes, want) in &FILES_THAT_MEAN_HARM {
        assert!(rt; count(rt.alloc(), bytes) == want);
    }
}

static FACES_THAT_ARE_REFUSED: [(&[u8], ObjFault); 5] = [
    (b"f 0 1 2", ObjFault::Index(5)),
    (b"f 1 2 5", ObjFault::Index(5)),
    (b"f 1 2", ObjFault::FewCorners(5)),
    (b"f 1 2 x", ObjFault::Word(5)),
    (b"f 1 2 0\nv 1", ObjFault::Index(5)),
];

#[test]
fn faces_that_are_refused(rt: HostRuntime) -> Result<(), Fail> {
    // Behind four vertices, on lines 1 to 4.
    let vertices = b"v 0 0 0\nv 1 0 0\nv 0 1 0\nv 0 0 1\n";
    for &(face, want) in &FACES_THAT_ARE_REFUSED {
        let mut bytes = Vec::from_slice(rt.alloc(), vertices)?;
        bytes.extend_from_slice(face)?;
        assert!(rt; count(rt.alloc(), &bytes) == Err(want));
    }
    Ok(())
}

fn corner(at: [i32; 3]) -> Corner {
    Corner {
        x: at[0],
        y: at[1],
        z: at[2],
    }
}

fn triangle(corners: [[i32; 3]; 3]) -> Tri {
    Tri {
        a: corner(corners[0]),
        b: corner(corners[1]),
        c: corner(corners[2]),
        mesh: 1,
    }
}

// The file has these triangles, from faces on these lines.
fn check(
    rt: &impl Abort,
    alloc: Global,
    bytes: &[u8],
    want: &[[[i32; 3]; 3]],
    lines: &[u32],
) -> Result<(), Fail> {
    let Ok(soup) = read(alloc, bytes) else {
        return Err(Fail::from("refused"));
    };
    assert!(rt; soup.lines.items() == lines);
    let tris = soup.tris.items();
    assert!(rt; tris.len() == want.len());
    for i in 0..want.len() {
        assert!(rt; tris[i] == triangle(want[i]));
    }
    Ok(())
}

#[test]
fn triangles_of_a_tetrahedron(rt: HostRuntime) -> Result<(), Fail> {
    let [o, x, y, z] = [[0, 0, 0], [1, 0, 0], [0, 1, 0], [0, 0, 1]];
    let want = [[o, y, x], [o, x, z], [o, z, y], [x, y, z]];
    check(&rt, rt.alloc(), TETRA_OBJ, &want, &[5, 6, 7, 8])
}

#[test]
fn references_from_the_end(rt: HostRuntime) -> Result<(), Fail> {
    let bytes = b"v 0 0 0\nv 1 0 0\nv 0 1 0\nv 0 0 1\nf -4 -2 -3";
    check(
        &rt,
        rt.alloc(),
        bytes,
        &[[[0, 0, 0], [0, 1, 0], [1, 0, 0]]],
        &[5],
    )
}

#[test]
fn a_fan(rt: HostRuntime) -> Result<(), Fail> {
    let pentagon = b"v 0 0 0\nv 2 0 0\nv 3 2 0\nv 1 3 0\nv -1 2 0\nf 1 2 3 4 5";
    let [o, a, b, c, d] = [[0, 0, 0], [2, 0, 0], [3, 2, 0], [1, 3, 0], [-1, 2, 0]];
    check(
        &rt,
        rt.alloc(),
        pentagon,
        &[[o, a, b], [o, b, c], [o, c, d]],
        &[6, 6, 6],
    )
}

#[test]
fn too_many_vertices(rt: HostRuntime) -> Result<(), Fail> {
    let mut bytes = Vec::new(rt.alloc());
    for _ in 0..262_145 {
        bytes.extend_from_slice(b"v 0 0 0\n")?;
    }
    assert!(rt; count(rt.alloc(), &bytes) == Err(ObjFault::TooMany(262_145)));
    Ok(())
}

#[test]
fn long_lines(rt: HostRuntime) -> Result<(), Fail> {
    let mut bytes = Vec::from_slice(rt.alloc(), b"v 0 0 0")?;
    bytes.resize(65_536, b' ')?;
    assert!(rt; count(rt.alloc(), &bytes) == Ok(0));
    bytes.push(b' ')?;
    assert!(rt; count(rt.alloc(), &bytes) == Err(ObjFault::LongLine(1)));
    Ok(())
}
