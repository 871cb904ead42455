// The faces of the outlines of the written regions of each leaf, in memory, on any grid.
ghost use Rattle.std.specs.Prelude.{IfOk};
ghost use Rattle.ember_expr.specs.Formula.{formula_of};
ghost use Rattle.ember_model.specs.Limits.{most_meshes};
ghost use Rattle.ember_report.specs.Runs.{AreJournalsOf};
ghost use Rattle.ember_step.specs.Outlines.{AreLeafOutlines};
ghost use Rattle.ember_visit.specs.Jobs.{root_job_on};
ghost use Rattle.ember_visit.specs.Values.{shape_on};
ghost use Rattle.ember_width.specs.Scenes.{IsSceneWithin};

use crate::executor::results_alone;
use crate::query::RunResult;
use ember_expr::Expr;
use ember_job::{Job, Step};
use ember_model::{FaceList, OutOfMemory, Tri};
use ember_step::{OutlineWork, outlines_step};
use ember_visit::root_job_among;
use ember_width::Width;
use std::alloc::Global;
use std::marker::PhantomData;
use steal_pool::Gate;

/// The faces of the outlines of the written regions of each leaf, for the triangles of a scene on a
/// grid. This thread alone runs the boxes, and calls the gate before each. The only error is
/// out-of-memory.
pub fn outlines_alone<W: Width, G: Gate>(
    alloc: Global,
    gate: &G,
    tris: &[Tri],
    expr: &Expr,
) -> Result<RunResult<FaceList>, OutOfMemory>
    requires { IsSceneWithin W.corner tris.now most_meshes }
    ensures items { IfOk result (λ found.
        AreLeafOutlines W.Width tris.now (formula_of expr.now) found.items.items) }
    ensures journals { IfOk result (λ found. AreJournalsOf
        (shape_on W.scale W.fine tris.now (formula_of expr.now)) (root_job_on W.scale tris.now) found.journals) }
{
    let root = root_job_among::<W>(alloc, tris)?;
    let step = Step {
        work: OutlineWork {
            tris,
            expr,
            width: PhantomData::<W>,
        },
        call: |job: &Job| outlines_step::<W>(alloc, tris, expr, job),
    };
    results_alone(alloc, gate, root, &step)
}
