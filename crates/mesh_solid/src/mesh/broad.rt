// The mesh of a solid of a scene on the broad grid.
ghost use Rattle.std.specs.Prelude.{IfOk, IfErr};
ghost use Rattle.ember_expr.specs.Formula.{formula_of};
ghost use Rattle.ember_model.specs.Limits.{broad_limit, most_meshes};
ghost use Rattle.ember_query.specs.Queries.{IsExecutor};
ghost use Rattle.ember_width.specs.Scenes.{IsSceneWithin};
ghost use Rattle.mesh_solid.specs.Mesh.FaceMeshes.{IsBroadFault, IsBroadRun};
ghost use Rattle.mesh_triangles.specs.PlaneQueries.{IsPlaneExecutor};

use crate::mesh::fault::SolidFault;
use crate::mesh::mesh::mesh_of_faces;
use crate::mesh::solid::SolidRun;
use ember_expr::Expr;
use ember_model::{OutOfMemory, Tri};
use ember_query::{Answer, Query, SolidFaces, broad_solid_faces};
use mesh_triangles::{PlaneAnswer, PlaneQuery, TrianglesFault};
use std::alloc::Global;

/// The solid of an expression over the triangles of a scene on the broad grid as certified triangles.
/// They cut up the faces of the outlines of the written regions. Such a solid has no document. One
/// executor runs boxes, and the other answers for lines and planes. It is a fault if the faces have no
/// tables or if no certified triangles are found; it isn't proved that this never happens.
pub fn broad_solid_mesh<
    C: Fn(&Query) -> Result<Answer, OutOfMemory>,
    D: Fn(&PlaneQuery) -> Result<PlaneAnswer, TrianglesFault>,
>(
    alloc: Global,
    tris: &[Tri],
    expr: &Expr,
    executor: &C,
    plane_executor: &D,
) -> Result<SolidRun, SolidFault>
    requires scene { IsSceneWithin broad_limit tris.now most_meshes }
    requires executor { IsExecutor C.pre C.post executor.now }
    requires plane_executor { IsPlaneExecutor D.pre D.post plane_executor.now }
    ensures solid { IfOk result (IsBroadRun tris.now (formula_of expr.now)) }
    ensures fault { IfErr result (IsBroadFault tris.now (formula_of expr.now)) }
{
    let SolidFaces { faces, report } = broad_solid_faces(alloc, tris, expr, executor)?;
    let mesh = mesh_of_faces(alloc, faces, plane_executor)?;
    Ok(SolidRun {
        mesh,
        report,
        document: None,
    })
}
