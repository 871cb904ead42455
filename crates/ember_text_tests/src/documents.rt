// The text of faces.
ghost use Rattle.std.specs.Prelude.{◌<◌};

use crate::shapes::{TETRA, plane};
use crate::texts::TETRA_TEXT;
use ember_leaf::Kept;
use ember_poly::{Cut, Ring, cut, of_tri};
use ember_text::{begin_file, document, end_file, face_text};
use std::alloc::Global;
use std::test::Fail;

// The face of a triangle of the tetrahedron.
fn face_of(alloc: Global, i: usize) -> Result<Ring, Fail>
    requires { i < 4 }
{
    match of_tri(alloc, &TETRA[i])? {
        Some(ring) => Ok(ring),
        None => Err(Fail::from("no face")),
    }
}

#[test]
fn the_faces_of_a_tetrahedron_one_by_one(rt: HostRuntime) -> Result<(), Fail> {
    let alloc = rt.alloc();
    let mut text = begin_file(alloc)?;
    for i in 0..4 {
        face_text(alloc, &face_of(alloc, i)?, false, &mut text)?;
    }
    end_file(4, &mut text)?;
    assert!(rt; text.as_slice() == TETRA_TEXT);
    Ok(())
}

#[test]
fn the_document_of_a_tetrahedron(rt: HostRuntime) -> Result<(), Fail> {
    let alloc = rt.alloc();
    let mut kept = Vec::new(alloc);
    for i in 0..4u32 {
        let region = Kept {
            tri: i,
            flipped: false,
            ring: face_of(alloc, i as usize)?,
        };
        let Ok(()) = kept.push(region) else {
            return Err(Fail::from("memory"));
        };
    }
    let text = document(alloc, &kept)?;
    assert!(rt; text.as_slice() == TETRA_TEXT);
    Ok(())
}

#[test]
fn a_flipped_face(rt: HostRuntime) -> Result<(), Fail> {
    let alloc = rt.alloc();
    let mut text = Vec::new(alloc);
    face_text(alloc, &face_of(alloc, 3)?, true, &mut text)?;
    let want = b"f -1 -1 -1 -1 3\ne 0 0 -1 0 0 1 0 1\ne 0 -1 0 0 1 0 0 1\ne 0 1 1 1 0 0 1 1\n";
    assert!(rt; text.as_slice() == want.as_slice());
    Ok(())
}

// The parts of the last face of the tetrahedron below and above 2x = 1.
const PARTS: &[u8] = b"\
f 1 1 1 1 4\ne 0 0 -1 0 1 1 0 2\ne 0 1 1 1 0 1 0 1\ne 0 -1 0 0 0 0 1 1\ne 2 0 0 1 1 0 1 2\n\
f 1 1 1 1 3\ne 0 0 -1 0 1 0 0 1\ne -2 0 0 -1 1 1 0 2\ne 0 -1 0 0 1 0 1 2\n";

#[test]
fn the_parts_of_a_cut_triangle(rt: HostRuntime) -> Result<(), Fail> {
    let alloc = rt.alloc();
    let ring = face_of(alloc, 3)?;
    let Cut::Both(low, high) = cut(alloc, &ring, &plane([2, 0, 0, 1]))? else {
        return Err(Fail::from("one part"));
    };
    let mut text = Vec::new(alloc);
    for part in [&low, &high] {
        face_text(alloc, part, false, &mut text)?;
    }
    assert!(rt; text.as_slice() == PARTS);
    Ok(())
}
