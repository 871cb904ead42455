// The faces of the solid of an expression over a scene on the broad grid, in memory.
ghost use Rattle.std.specs.Prelude.{IfOk};
ghost use Rattle.ember_expr.specs.Formula.{formula_of};
ghost use Rattle.ember_model.specs.Limits.{broad_limit, most_meshes};
ghost use Rattle.ember_query.specs.BroadLeaves.{AreBroadSceneOutlines, IsReportOnBroad};
ghost use Rattle.ember_query.specs.Queries.{IsExecutor};
ghost use Rattle.ember_width.specs.Scenes.{IsSceneWithin};

use crate::faces::{SolidFaces, joined};
use crate::query::{Answer, Query, query_broad_outlines};
use ember_expr::Expr;
use ember_model::{OutOfMemory, Tri};
use ember_report::report_of;
use ember_step::leaf_outlines_join;
use ember_width::Broad;
use std::alloc::Global;

/// The faces of the solid of an expression over the triangles of a scene on the broad grid: those of the
/// outlines of its written regions, in order, and the report. The only error is out-of-memory.
pub fn broad_solid_faces<C: Fn(&Query) -> Result<Answer, OutOfMemory>>(
    alloc: Global,
    tris: &[Tri],
    expr: &Expr,
    executor: &C,
) -> Result<SolidFaces, OutOfMemory>
    requires scene { IsSceneWithin broad_limit tris.now most_meshes }
    requires executor { IsExecutor C.pre C.post executor.now }
    ensures faces { IfOk result (λ solid. AreBroadSceneOutlines tris.now (formula_of expr.now) solid.faces.items) }
    ensures report { IfOk result (λ solid.
        IsReportOnBroad tris.now (formula_of expr.now) solid.faces.items solid.report) }
{
    let found = query_broad_outlines(tris, expr, executor)?;
    let journals = found.journals;
    let faces = joined(alloc, found.items)?;
    // A law, which does nothing: the lists, one after another, are the faces of the scene's outlines.
    leaf_outlines_join::<Broad>(tris, expr);
    // As in `solid_of`, there are fewer than 2^64 entries.
    let report = report_of(&journals, faces.len() as u64);
    Ok(SolidFaces { faces, report })
}
