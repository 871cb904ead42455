// The faces of the solid of an expression over a scene, in memory.
ghost use Rattle.std.specs.Prelude.{◌≡◌, length, flat_map, All, IfOk};
ghost use Rattle.ember_expr.specs.Formula.{formula_of};
ghost use Rattle.ember_model.specs.Valid.{IsValidFace};
ghost use Rattle.ember_query.specs.Queries.{IsExecutor};
ghost use Rattle.ember_meaning.specs.Regions.Solids.{AreSolidFaces, IsSolidReport};

use crate::query::{Answer, Query, query_faces};
use ember_expr::Expr;
use ember_model::{Face, FaceList, OutOfMemory, Scene};
use ember_report::{Report, report_of};
use ember_step::leaf_faces_join;
use std::alloc::Global;

/// The faces of a solid, and the report.
#[derive(Drop)]
pub struct SolidFaces {
    pub faces: Vec<Face>,
    pub report: Report,
}

// The faces of all lists, in order. Each list is dropped as soon as its faces have moved.
pub(crate) fn joined(alloc: Global, lists: Vec<FaceList>) -> Result<Vec<Face>, OutOfMemory>
    ensures { IfOk result (λ faces. faces.items ≡ flat_map (λ list. list) lists.items) }
{
    let count = lists.iter().fold(
        0,
        |count: usize, list| count.saturating_add(list.items().len()),
    );
    let mut faces = Vec::with_capacity(alloc, count)?;
    for list in lists {
        faces.append(&mut list.into_vec())?;
    }
    Ok(faces)
}

/// The faces of the solid of an expression over a scene: those that its document (`solid_of`) holds,
/// in order. Neither this document nor a text is made. The only error is out-of-memory.
pub fn solid_faces<C: Fn(&Query) -> Result<Answer, OutOfMemory>>(
    alloc: Global,
    scene: &Scene,
    expr: &Expr,
    executor: &C,
) -> Result<SolidFaces, OutOfMemory>
    requires { IsExecutor C.pre C.post executor.now }
    ensures faces { IfOk result (λ solid. AreSolidFaces scene.now.tris (formula_of expr.now) solid.faces.items) }
    ensures valid { IfOk result (λ solid. All IsValidFace solid.faces.items) }
    ensures report { IfOk result (λ solid. IsSolidReport scene.now.tris (formula_of expr.now) solid.report) }
    ensures count { IfOk result (λ solid. solid.report.faces ≡ length solid.faces.items) }
{
    let found = query_faces(scene, expr, executor)?;
    let journals = found.journals;
    let faces = joined(alloc, found.items)?;
    // A law, which does nothing: the lists, one after another, are the faces of the written regions.
    leaf_faces_join(scene, expr);
    // As in `solid_of`, `journals_fit` says that there are fewer than 2^64 entries.
    let report = report_of(&journals, faces.len() as u64);
    Ok(SolidFaces { faces, report })
}
