// The mesh of a solid.
ghost use Rattle.std.specs.Prelude.{true, false, All, IfOk, IfErr};
ghost use Rattle.ember_model.specs.FaceFiles.{IsFaceFile};
ghost use Rattle.ember_model.specs.Valid.{IsValidFace};
ghost use Rattle.ember_expr.specs.Formula.{formula_of};
ghost use Rattle.ember_query.specs.Queries.{IsExecutor};
ghost use Rattle.mesh_solid.specs.Mesh.FaceTables.{HoldsFaces};
ghost use Rattle.mesh_solid.specs.Mesh.Faults.{IsSolidFault};
ghost use Rattle.mesh_solid.specs.Mesh.Meshes.{IsSolidRun};
ghost use Rattle.mesh_triangles.specs.PlaneQueries.{IsPlaneExecutor};

use crate::mesh::fault::SolidFault;
use crate::mesh::mesh::{SolidMesh, mesh_of_faces};
use ember_expr::Expr;
use ember_model::{Face, OutOfMemory, Scene};
use ember_query::{Answer, Query, SolidDocument, SolidFaces, solid_faces, solid_of};
use ember_report::Report;
use ember_reread::{RereadFault, read_faces};
use mesh_triangles::{PlaneAnswer, PlaneQuery, TrianglesFault};
use std::alloc::{AllocError, Global};

/// The mesh of a solid, with the numbers of the run.
#[derive(Drop)]
pub struct SolidRun {
    pub mesh: SolidMesh,
    pub report: Report,
    /// The document of the solid, if it is to be kept.
    pub document: Option<Vec<u8>>,
}

// The faces of a face file.
fn faces_in(alloc: Global, file: &[u8]) -> Result<Vec<Face>, OutOfMemory>
    requires { HoldsFaces file.now }
    ensures faces { IfOk result (λ faces. IsFaceFile file.now faces.items) }
    ensures valid { IfOk result (λ faces. All IsValidFace faces.items) }
{
    match read_faces(alloc, file) {
        Ok(faces) => Ok(faces.into_vec()),
        Err(RereadFault::OutOfMemory) => Err(AllocError),
        Err(RereadFault::Form) => unreachable!(),
    }
}

// The mesh of a solid with its document, which is made, and read back for its faces.
fn mesh_with_document<
    C: Fn(&Query) -> Result<Answer, OutOfMemory>,
    D: Fn(&PlaneQuery) -> Result<PlaneAnswer, TrianglesFault>,
>(
    alloc: Global,
    scene: &Scene,
    expr: &Expr,
    executor: &C,
    plane_executor: &D,
) -> Result<SolidRun, SolidFault>
    requires executor { IsExecutor C.pre C.post executor.now }
    requires plane_executor { IsPlaneExecutor D.pre D.post plane_executor.now }
    ensures solid { IfOk result (IsSolidRun scene.now.tris (formula_of expr.now) true) }
    ensures fault { IfErr result (IsSolidFault scene.now.tris (formula_of expr.now)) }
{
    let SolidDocument { text, report } = solid_of(alloc, scene, expr, executor)?;
    let faces = faces_in(alloc, &text)?;
    let mesh = mesh_of_faces(alloc, faces, plane_executor)?;
    Ok(SolidRun {
        mesh,
        report,
        document: Some(text),
    })
}

// The mesh of a solid alone. Its document isn't made.
fn mesh_alone<
    C: Fn(&Query) -> Result<Answer, OutOfMemory>,
    D: Fn(&PlaneQuery) -> Result<PlaneAnswer, TrianglesFault>,
>(
    alloc: Global,
    scene: &Scene,
    expr: &Expr,
    executor: &C,
    plane_executor: &D,
) -> Result<SolidRun, SolidFault>
    requires executor { IsExecutor C.pre C.post executor.now }
    requires plane_executor { IsPlaneExecutor D.pre D.post plane_executor.now }
    ensures solid { IfOk result (IsSolidRun scene.now.tris (formula_of expr.now) false) }
    ensures fault { IfErr result (IsSolidFault scene.now.tris (formula_of expr.now)) }
{
    let SolidFaces { faces, report } = solid_faces(alloc, scene, expr, executor)?;
    let mesh = mesh_of_faces(alloc, faces, plane_executor)?;
    Ok(SolidRun {
        mesh,
        report,
        document: None,
    })
}

/// The solid of an expression over a scene as certified triangles. They cut up the faces that the
/// solid's document holds. This document is made only if it `keeps` it. The faces are dropped before
/// the triangles are made. One executor runs boxes, and the other answers for lines and planes. It is
/// a fault if the faces have no tables or if no certified triangles are found; it isn't proved that
/// this never happens.
pub fn solid_mesh<
    C: Fn(&Query) -> Result<Answer, OutOfMemory>,
    D: Fn(&PlaneQuery) -> Result<PlaneAnswer, TrianglesFault>,
>(
    alloc: Global,
    scene: &Scene,
    expr: &Expr,
    keeps: bool,
    executor: &C,
    plane_executor: &D,
) -> Result<SolidRun, SolidFault>
    requires executor { IsExecutor C.pre C.post executor.now }
    requires plane_executor { IsPlaneExecutor D.pre D.post plane_executor.now }
    ensures solid { IfOk result (IsSolidRun scene.now.tris (formula_of expr.now) keeps) }
    ensures fault { IfErr result (IsSolidFault scene.now.tris (formula_of expr.now)) }
{
    if keeps {
        mesh_with_document(alloc, scene, expr, executor, plane_executor)
    } else {
        mesh_alone(alloc, scene, expr, executor, plane_executor)
    }
}
