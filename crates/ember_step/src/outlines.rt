// The faces of the outlines of what a box writes, in memory, on any grid.
ghost use Rattle.std.specs.Prelude.{◌<◌, IfOk};
ghost use Rattle.ember_expr.specs.Formula.{formula_of};
ghost use Rattle.ember_model.specs.Limits.{most_meshes};
ghost use Rattle.ember_model.specs.Within.{normal_limit};
ghost use Rattle.ember_step.specs.Outlines.{AnswersByOutlines};
ghost use Rattle.ember_visit.specs.Jobs.{IsJobOn};
ghost use Rattle.ember_width.specs.Scenes.{IsSceneWithin};

use crate::step::box_step_among;
use ember_expr::Expr;
use ember_job::{Job, Outcome, Work};
use ember_model::{FaceList, OutOfMemory, Tri};
use ember_text::outline_faces_on;
use ember_width::Width;
use std::alloc::Global;
use std::marker::PhantomData;

/// The Boolean of an expression over the triangles of a scene on a grid, as faces in memory: the
/// work whose item for a leaf is the list of the faces of the outlines of its written regions.
#[derive(Drop)]
pub struct OutlineWork<'a, W: Width> {
    pub tris: &'a [Tri],
    pub expr: &'a Expr,
    pub width: PhantomData<W>,
    ghost scene: { IsSceneWithin W.corner tris.now most_meshes },
    ghost tells_apart: { normal_limit W.corner < W.fine },
}

impl<'a, W: Width> Work for OutlineWork<'a, W> {
    ghost use Rattle.ember_expr.specs.Formula.{formula_of};
    ghost use Rattle.ember_step.specs.Outlines.{AreBoxOutlines};
    ghost use Rattle.ember_visit.specs.Jobs.{IsJobOn};
    ghost use Rattle.ember_visit.specs.Values.{shape_on};
    ghost use Rattle.ember_visit.proofs.Laws.{halves_are_jobs_on, halves_are_split_on};

    type Item = FaceList;

    ghost valid = { λ w job. IsJobOn W.scale W.fine w.tris.now job };

    ghost shape = { λ w job. shape_on W.scale W.fine w.tris.now (formula_of w.expr.now) job };

    ghost item = { λ w job faces. AreBoxOutlines W.Width w.tris.now (formula_of w.expr.now) job.cell faces };

    ghost halves_valid = { λ w job low high v e. halves_are_jobs_on W.scale W.fine w.tris.now
        (formula_of w.expr.now) job low high W.corner w.tells_apart w.scene v e };

    ghost halves_split = { λ w job low high v e. halves_are_split_on W.scale W.fine w.tris.now
        (formula_of w.expr.now) job low high e };
}

/// The same as `box_step_among`, but a leaf gives the faces of the outlines of its written regions.
/// The only error is out-of-memory.
pub fn outlines_step<W: Width>(
    alloc: Global,
    tris: &[Tri],
    e: &Expr,
    job: &Job,
) -> Result<Outcome<FaceList>, OutOfMemory>
    requires scene { IsSceneWithin W.corner tris.now most_meshes }
    requires job { IsJobOn W.scale W.fine tris.now job.now }
    ensures { IfOk result (λ o. AnswersByOutlines W.Width tris.now (formula_of e.now) job.now o) }
{
    match box_step_among::<W>(alloc, tris, e, job)? {
        Outcome::Halves(left, right) => Ok(Outcome::Halves(left, right)),
        Outcome::Leaf(kept) => {
            let faces = outline_faces_on(alloc, kept.items())?;
            Ok(Outcome::Leaf(FaceList::of(faces)))
        }
        Outcome::Skipped => Ok(Outcome::Skipped),
    }
}
