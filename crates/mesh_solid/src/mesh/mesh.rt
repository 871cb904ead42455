// The mesh of faces.
ghost use Rattle.std.specs.Prelude.{◌≡◌, ℕ, List, length, All, IfOk, IfErr};
ghost use Rattle.ember_model.specs.FaceFiles.{IsFaceFile};
ghost use Rattle.ember_width.specs.Broad.{IsBroadPlane};
ghost use Rattle.mesh_solid.specs.Mesh.FaceMeshes.{IsFacesMesh, IsFacesFault};
ghost use Rattle.mesh_solid.specs.Mesh.Faults.{IsCutFault, IsFileFault};
ghost use Rattle.mesh_solid.specs.Mesh.Meshes.{IsDocumentMesh, IsMeshOf};
ghost use Rattle.mesh_solid.specs.Tables.Edges.{IsBroadFace};
ghost use Rattle.mesh_triangles.specs.PlaneQueries.{IsPlaneExecutor};

use crate::mesh::fault::SolidFault;
use crate::tables::{Tables, tables_of};
use ember_model::{Face, Plane};
use mesh_certificate::Triangle;
use mesh_point::SpacePoint;
use mesh_triangles::{PlaneAnswer, PlaneQuery, TrianglesFault, certified_triangles};
use std::alloc::Global;

/// Triangles of the faces of a solid or a document, with the planes and corners that their numbers stand for.
/// A corner may belong to no triangle.
#[derive(Drop)]
pub struct SolidMesh {
    pub planes: Vec<Plane>,
    pub corners: Vec<SpacePoint>,
    pub triangles: Vec<Triangle>,
    /// The number of the faces that the triangles cut up.
    pub faces: u64,
}

// The mesh with these tables, of so many faces. Lines and segments aren't kept.
fn mesh_of<D: Fn(&PlaneQuery) -> Result<PlaneAnswer, TrianglesFault>>(
    alloc: Global,
    tables: Tables,
    faces: u64,
    plane_executor: &D,
) -> Result<SolidMesh, SolidFault>
    requires broad { All IsBroadPlane tables.planes.items }
    requires plane_executor { IsPlaneExecutor D.pre D.post plane_executor.now }
    ensures mesh { IfOk result (λ mesh. IsMeshOf tables mesh) }
    ensures faces { IfOk result (λ mesh. mesh.faces ≡ faces) }
    ensures fault { IfErr result (λ fault. IsCutFault fault) }
{
    let Tables {
        planes,
        lines,
        corners,
        segments,
    } = tables;
    let triangles = certified_triangles(
        alloc,
        &planes,
        &lines,
        &corners,
        &segments,
        plane_executor,
    )?;
    Ok(SolidMesh {
        planes,
        corners,
        triangles,
        faces,
    })
}

// The mesh of faces, which aren't kept while triangles are made: those of a document, or of outlines.
pub(crate) fn mesh_of_faces<D: Fn(&PlaneQuery) -> Result<PlaneAnswer, TrianglesFault>>(
    alloc: Global,
    faces: Vec<Face>,
    plane_executor: &D,
) -> Result<SolidMesh, SolidFault>
    requires broad { All IsBroadFace faces.items }
    requires plane_executor { IsPlaneExecutor D.pre D.post plane_executor.now }
    ensures faces { IfOk result (IsFacesMesh faces.items) }
    ensures faces_fault { IfErr result (IsFacesFault faces.items) }
    ensures mesh { (bytes : List ℕ) → IsFaceFile bytes faces.items → IfOk result (IsDocumentMesh bytes) }
    ensures fault { (bytes : List ℕ) → IsFaceFile bytes faces.items → IfErr result (IsFileFault bytes) }
{
    let count = faces.len() as u64;
    let tables = tables_of(alloc, &faces)?;
    drop(faces);
    mesh_of(alloc, tables, count, plane_executor)
}
