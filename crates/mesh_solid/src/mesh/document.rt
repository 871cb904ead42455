// The mesh of a document.
ghost use Rattle.std.specs.Prelude.{◌≡◌, ◌≢◌, ℕ, List, All, map, IfOk, IfErr, OnOk};
ghost use Rattle.mesh_solid.specs.Outline.Rounds.{IsRound};
ghost use Rattle.ember_reread.specs.Cornered.{IsFileOf, face_of};
ghost use Rattle.ember_reread.specs.Lines.{face_in};
ghost use Rattle.mesh_solid.specs.Mesh.Faults.{IsDocumentFault, of_outline_fault};
ghost use Rattle.mesh_solid.specs.Mesh.Meshes.{IsOutlinedMesh};
ghost use Rattle.mesh_triangles.specs.declared.fault.TrianglesFault.TheVariants as triangles;
ghost use Rattle.mesh_triangles.specs.PlaneQueries.{IsPlaneExecutor};

use crate::mesh::fault::{DocumentFault, SolidFault};
use crate::mesh::mesh::{SolidMesh, mesh_of_faces};
use crate::outline::{OutlineFault, check_outline};
use crate::refusal::{are_lines_closed, have_overlap};
use crate::tables::tables_of;
use ember_model::Face;
use ember_reread::{CorneredFace, read_cornered_faces};
use mesh_triangles::{PlaneAnswer, PlaneQuery, TrianglesFault};
use std::alloc::Global;

// The fault of the face with this number.
fn face_fault(number: usize, fault: OutlineFault) -> DocumentFault
    ensures { result ≡ of_outline_fault number fault }
{
    match fault {
        OutlineFault::OffPlane => DocumentFault::OffPlane(number),
        OutlineFault::OffEdge => DocumentFault::OffEdge(number),
        OutlineFault::NotRound => DocumentFault::NotRound(number),
        OutlineFault::OutOfMemory => DocumentFault::OutOfMemory,
    }
}

// The faces without their corners, if the written edges of each are its outline.
fn outlined_faces(alloc: Global, written: &[CorneredFace]) -> Result<Vec<Face>, DocumentFault>
    ensures faces { IfOk result (λ faces. faces.items ≡ map face_in (map face_of written.now)) }
    ensures round { OnOk result (All IsRound (map face_of written.now)) }
    ensures fault { (bytes : List ℕ) → IsFileOf (map face_of written.now) bytes →
        IfErr result (IsDocumentFault bytes) }
{
    let mut faces = Vec::with_capacity(alloc, written.len())?;
    for (number, face) in written.iter().enumerate() {
        match check_outline(alloc, face) {
            Ok(()) => faces.push(face.face(alloc)?)?,
            Err(fault) => return Err(face_fault(number, fault)),
        }
    }
    Ok(faces)
}

// Why the faces of a document got no triangles. They are read anew, since they weren't kept while
// triangles were made.
fn checked_fault(
    alloc: Global,
    bytes: &[u8],
    fault: TrianglesFault,
) -> Result<DocumentFault, DocumentFault>
    requires { fault ≢ triangles.OutOfMemory }
    ensures found { IfOk result (IsDocumentFault bytes.now) }
    ensures fault { IfErr result (IsDocumentFault bytes.now) }
{
    let written = read_cornered_faces(alloc, bytes)?;
    let faces = outlined_faces(alloc, &written)?;
    let tables = tables_of(alloc, &faces)?;
    let closed = are_lines_closed(alloc, &tables.segments)?;
    if !closed {
        return Ok(DocumentFault::NotClosed);
    }
    let overlap = have_overlap(alloc, &written)?;
    if overlap {
        return Ok(DocumentFault::Overlap);
    }
    Ok(DocumentFault::NotCut(fault))
}

// The same, or what is met on the way.
fn uncut_fault(alloc: Global, bytes: &[u8], fault: TrianglesFault) -> DocumentFault
    requires { fault ≢ triangles.OutOfMemory }
    ensures { IsDocumentFault bytes.now result }
{
    match checked_fault(alloc, bytes, fault) {
        Ok(found) => found,
        Err(met) => met,
    }
}

/// The faces of a document, which may come from anywhere, as certified triangles. A fault is the
/// first of these:
///
/// 1. The bytes aren't a face file.
/// 2. The written edges of a face aren't its outline: see
///    [`check_outline`](crate::outline::check_outline). The first such face is reported.
/// 3. The faces have no tables: an edge has no line or no corner within the limits.
/// 4. No certified triangles are found, and the faces aren't closed along a line.
/// 5. No certified triangles are found, and two faces of one plane overlap.
/// 6. No certified triangles are found, and neither is the reason. It isn't proved that this never
///    happens.
///
/// The executor answers for lines and planes.
pub fn document_mesh<D: Fn(&PlaneQuery) -> Result<PlaneAnswer, TrianglesFault>>(
    alloc: Global,
    bytes: &[u8],
    plane_executor: &D,
) -> Result<SolidMesh, DocumentFault>
    requires { IsPlaneExecutor D.pre D.post plane_executor.now }
    ensures mesh { IfOk result (IsOutlinedMesh bytes.now) }
    ensures fault { IfErr result (IsDocumentFault bytes.now) }
{
    let written = read_cornered_faces(alloc, bytes)?;
    let faces = outlined_faces(alloc, &written)?;
    drop(written);
    match mesh_of_faces(alloc, faces, plane_executor) {
        Ok(mesh) => Ok(mesh),
        Err(SolidFault::NoTables(fault)) => Err(DocumentFault::NoTables(fault)),
        Err(SolidFault::NotCut(fault)) => Err(uncut_fault(alloc, bytes, fault)),
        Err(SolidFault::OutOfMemory) => Err(DocumentFault::OutOfMemory),
    }
}
