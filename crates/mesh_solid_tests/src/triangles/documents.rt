// Documents from anywhere become certified triangles, or are refused.
ghost use Rattle.std.specs.Prelude.{IfOk};
ghost use Rattle.mesh_triangles.specs.PlaneQueries.{IsPlaneAnswer, IsPlaneQuery};

use crate::triangles::tables::TETRA;
use mesh_solid::{DocumentFault, SolidMesh, document_mesh};
use mesh_triangles::{PlaneAnswer, PlaneQuery, TrianglesFault, answer_planes_alone};
use std::alloc::{AllocError, Global};
use std::test::Fail;

// The bottom of the tetrahedron alone.
const BOTTOM: &[u8] = b"ember 1\nf 0 0 -1 0 3\ne -1 0 0 0 0 0 0 1\n\
    e 1 1 0 1 0 1 0 1\ne 0 -1 0 0 1 0 0 1\n";

// The document of the bottom and these lines.
fn with_bottom(alloc: Global, lines: &[u8]) -> Result<Vec<u8>, AllocError> {
    let mut document = Vec::from_slice(alloc, BOTTOM)?;
    document.extend_from_slice(lines)?;
    Ok(document)
}

/// The mesh of a document, by the calling thread alone.
pub fn mesh_of(alloc: Global, bytes: &[u8]) -> Result<SolidMesh, DocumentFault> {
    document_mesh(
        alloc,
        bytes,
        &|query: &PlaneQuery| -> Result<PlaneAnswer, TrianglesFault>
            requires { IsPlaneQuery query.now }
            ensures { IfOk result (IsPlaneAnswer query.entry.now) }
        { answer_planes_alone(alloc, query) },
    )
}

fn is_tetrahedron(mesh: &SolidMesh) -> bool {
    mesh.faces == 4
        && mesh.triangles.len() == 4
        && mesh.planes.len() == 4
        && mesh.corners.len() == 4
}

fn is_empty(mesh: &SolidMesh) -> bool {
    mesh.faces == 0 && mesh.triangles.is_empty()
}

#[test]
fn a_tetrahedron_has_four_triangles(rt: HostRuntime) -> Result<(), Fail> {
    let mesh = mesh_of(rt.alloc(), TETRA)?;
    assert!(rt; is_tetrahedron(&mesh));
    let empty = mesh_of(rt.alloc(), b"ember 1\nend 0\n")?;
    assert!(rt; is_empty(&empty));
    Ok(())
}

// The document is refused for this fault.
fn is_refused(alloc: Global, bytes: &[u8], want: DocumentFault) -> bool {
    match mesh_of(alloc, bytes) {
        Ok(_mesh) => false,
        Err(fault) => fault == want,
    }
}

#[test]
fn what_is_no_document_is_refused(rt: HostRuntime) {
    for bytes in [b"".as_slice(), b"ember 1\n", b"ember 1\nend 1\n"] {
        assert!(rt; is_refused(rt.alloc(), bytes, DocumentFault::NotADocument));
    }
}

#[test]
fn one_face_is_not_closed(rt: HostRuntime) -> Result<(), Fail> {
    let document = with_bottom(rt.alloc(), b"end 1\n")?;
    assert!(rt; is_refused(rt.alloc(), &document, DocumentFault::NotClosed));
    Ok(())
}

// The bottom again, and the same triangle with the opposite front twice.
const SHEETS: &[u8] = b"f 0 0 -1 0 3\ne -1 0 0 0 0 0 0 1\ne 1 1 0 1 0 1 0 1\ne 0 -1 0 0 1 0 0 1\n\
    f 0 0 1 0 3\ne 0 -1 0 0 0 0 0 1\ne 1 1 0 1 1 0 0 1\ne -1 0 0 0 0 1 0 1\n\
    f 0 0 1 0 3\ne 0 -1 0 0 0 0 0 1\ne 1 1 0 1 1 0 0 1\ne -1 0 0 0 0 1 0 1\nend 4\n";

#[test]
fn faces_that_are_there_twice_overlap(rt: HostRuntime) -> Result<(), Fail> {
    let document = with_bottom(rt.alloc(), SHEETS)?;
    assert!(rt; is_refused(rt.alloc(), &document, DocumentFault::Overlap));
    Ok(())
}

static EDGES_THAT_ARE_NO_OUTLINE_ARE_REFUSED: [(&[u8], DocumentFault); 4] = [
    (
        b"f 0 0 -1 0 3\ne -1 0 0 0 0 0 0 1\ne 1 1 0 1 0 1 1 1\ne 0 -1 0 0 1 0 0 1\nend 2\n",
        DocumentFault::OffPlane(1),
    ),
    (
        b"f 0 0 -1 0 3\ne -1 0 0 0 0 0 0 1\ne 1 1 0 1 0 2 0 1\ne 0 -1 0 0 1 0 0 1\nend 2\n",
        DocumentFault::OffEdge(1),
    ),
    (
        b"f 0 0 1 0 3\ne -1 0 0 0 0 0 0 1\ne 1 1 0 1 0 1 0 1\ne 0 -1 0 0 1 0 0 1\nend 2\n",
        DocumentFault::NotRound(1),
    ),
    (
        b"f 0 0 -1 0 3\ne -1 0 0 0 0 1 0 1\ne 0 -1 0 0 0 0 0 1\ne 1 1 0 1 1 0 0 1\nend 2\n",
        DocumentFault::NotRound(1),
    ),
];

// The face after the bottom has each fault in turn: a corner above its plane, one on its plane but
// past its edge, the opposite front, and corners in the other order.
#[test]
fn edges_that_are_no_outline_are_refused(rt: HostRuntime) -> Result<(), Fail> {
    for &(lines, fault) in &EDGES_THAT_ARE_NO_OUTLINE_ARE_REFUSED {
        let document = with_bottom(rt.alloc(), lines)?;
        assert!(rt; is_refused(rt.alloc(), &document, fault));
    }
    Ok(())
}
