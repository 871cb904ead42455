// What becomes of a box.
ghost use Rattle.std.specs.Prelude.{IfOk};
ghost use Rattle.ember_model.specs.Limits.{most_meshes};
ghost use Rattle.ember_expr.specs.Formula.{formula_of};
ghost use Rattle.ember_step.specs.Boxes.{AnswersByRegions, AnswersByWritten, IsWrittenInBox};
ghost use Rattle.ember_visit.specs.Jobs.{IsJob, IsJobOn};
ghost use Rattle.ember_width.specs.Scenes.{IsSceneWithin};

use ember_expr::Expr;
use ember_job::{Job, OneItem, Outcome, Work};
use ember_leaf::{KeptList, leaf_faces_on};
use ember_model::{OutOfMemory, Scene, Tri};
use ember_visit::{box_value_among, halve_unless_leaf_among, listed_tris};
use ember_width::{Narrow, Width};
use std::alloc::Global;

/// The Boolean of an expression over a scene: the work whose item for a leaf is the list of its
/// written regions. Only tests run it; `bool` uses `TextWork`.
#[derive(Drop)]
pub struct BoolWork<'a> {
    pub scene: &'a Scene,
    pub expr: &'a Expr,
}

impl<'a> Work for BoolWork<'a> {
    ghost use Rattle.ember_expr.specs.Formula.{formula_of};
    ghost use Rattle.ember_box.specs.Near.{near};
    ghost use Rattle.ember_leaf.specs.Written.{IsWrittenIn};
    ghost use Rattle.ember_visit.specs.Jobs.{IsJob};
    ghost use Rattle.ember_visit.specs.Values.{shape as shape_of};
    ghost use Rattle.ember_visit.proofs.Laws.{halves_are_jobs, halves_are_split};

    type Item = KeptList;

    ghost valid = { λ w job. IsJob w.scene.now.tris job };

    ghost shape = { λ w job. shape_of w.scene.now.tris (formula_of w.expr.now) job };

    ghost item = { λ w job kept.
        IsWrittenIn w.scene.now.tris (formula_of w.expr.now) job.cell (near w.scene.now.tris job.cell) kept };

    ghost halves_valid = { λ w job low high v e. halves_are_jobs w.scene.now.tris
        (formula_of w.expr.now) job low high w.scene.now.meshes w.scene.now.kept v e };

    ghost halves_split = { λ w job low high v e. halves_are_split w.scene.now.tris
        (formula_of w.expr.now) job low high e };
}

impl<'a> OneItem for BoolWork<'a> {
    ghost use Rattle.ember_expr.specs.Formula.{formula_of};
    ghost use Rattle.ember_leaf.proofs.WrittenRegionsUnique.{written_in_unique};

    ghost one_item = { λ w job one other a b. written_in_unique w.scene.now.tris
        (formula_of w.expr.now) w.scene.now.meshes w.scene.now.kept job.cell one other a b };
}

// The written regions of a leaf.
fn written_in<W: Width>(
    alloc: Global,
    tris: &[Tri],
    e: &Expr,
    job: &Job,
) -> Result<KeptList<W>, OutOfMemory>
    requires scene { IsSceneWithin W.corner tris.now most_meshes }
    requires job { IsJobOn W.scale W.fine tris.now job.now }
    ensures { IfOk result (λ kept. IsWrittenInBox W.scale tris.now (formula_of e.now) job.now.cell kept) }
{
    let near = listed_tris(alloc, tris, job.list.items())?;
    leaf_faces_on::<W>(alloc, e, &job.cell, &near, &job.at)
}

/// What becomes of a job, for the triangles of a scene on a grid: it is skipped if the expression's
/// value is known in the whole box, and otherwise it is a leaf with the written regions, or it is
/// halved. The only error is out-of-memory.
pub fn box_step_among<W: Width>(
    alloc: Global,
    tris: &[Tri],
    e: &Expr,
    job: &Job,
) -> Result<Outcome<KeptList<W>>, OutOfMemory>
    requires scene { IsSceneWithin W.corner tris.now most_meshes }
    requires job { IsJobOn W.scale W.fine tris.now job.now }
    ensures { IfOk result (λ o. AnswersByRegions W.scale W.fine tris.now (formula_of e.now) job.now o) }
{
    if box_value_among(e, tris, job).is_some() {
        return Ok(Outcome::Skipped);
    }
    match halve_unless_leaf_among::<W>(alloc, tris, job)? {
        None => Ok(Outcome::Leaf(written_in::<W>(alloc, tris, e, job)?)),
        Some((left, right)) => Ok(Outcome::Halves(left, right)),
    }
}

/// The same as `box_step_among`, for the triangles of a scene.
pub fn box_step(
    alloc: Global,
    s: &Scene,
    e: &Expr,
    job: &Job,
) -> Result<Outcome<KeptList>, OutOfMemory>
    requires { IsJob s.now.tris job.now }
    ensures { IfOk result (λ o. AnswersByWritten s.now.tris (formula_of e.now) job.now o) }
{
    box_step_among::<Narrow>(alloc, s.tris.items(), e, job)
}
