// The number of regions that a box writes.
ghost use Rattle.std.specs.Prelude.{IfOk};
ghost use Rattle.ember_expr.specs.Formula.{formula_of};
ghost use Rattle.ember_step.specs.Counts.{AnswersByCounts};
ghost use Rattle.ember_visit.specs.Jobs.{IsJob};

use crate::step::box_step;
use ember_expr::Expr;
use ember_job::{Job, OneItem, Outcome, Work};
use ember_model::{OutOfMemory, Scene};
use std::alloc::Global;

/// The Boolean of an expression over a scene, of which only the numbers of written regions are
/// kept: the work whose item for a leaf is the number of its written regions. `demo` uses it.
#[derive(Drop)]
pub struct CountWork<'a> {
    pub scene: &'a Scene,
    pub expr: &'a Expr,
}

impl<'a> Work for CountWork<'a> {
    ghost use Rattle.ember_expr.specs.Formula.{formula_of};
    ghost use Rattle.ember_step.specs.Counts.{IsBoxCount};
    ghost use Rattle.ember_visit.specs.Jobs.{IsJob};
    ghost use Rattle.ember_visit.specs.Values.{shape as shape_of};
    ghost use Rattle.ember_visit.proofs.Laws.{halves_are_jobs, halves_are_split};

    type Item = u64;

    ghost valid = { λ w job. IsJob w.scene.now.tris job };

    ghost shape = { λ w job. shape_of w.scene.now.tris (formula_of w.expr.now) job };

    ghost item = { λ w job n. IsBoxCount w.scene.now.tris (formula_of w.expr.now) job.cell n };

    ghost halves_valid = { λ w job low high v e. halves_are_jobs w.scene.now.tris
        (formula_of w.expr.now) job low high w.scene.now.meshes w.scene.now.kept v e };

    ghost halves_split = { λ w job low high v e. halves_are_split w.scene.now.tris
        (formula_of w.expr.now) job low high e };
}

impl<'a> OneItem for CountWork<'a> {
    ghost use Rattle.ember_expr.specs.Formula.{formula_of};
    ghost use Rattle.ember_leaf.proofs.WrittenRegionsUnique.{written_in_unique};
    ghost use Rattle.ember_step.specs.Counts.{one_count};

    ghost one_item = { λ w job one other a b. one_count (λ us vs.
        written_in_unique w.scene.now.tris
        (formula_of w.expr.now) w.scene.now.meshes w.scene.now.kept job.cell us vs) a b };
}

/// The same as `box_step`, but a leaf gives the number of its written regions. The only error is
/// out-of-memory.
pub fn count_step(
    alloc: Global,
    s: &Scene,
    e: &Expr,
    job: &Job,
) -> Result<Outcome<u64>, OutOfMemory>
    requires { IsJob s.now.tris job.now }
    ensures { IfOk result (λ o. AnswersByCounts s.now.tris (formula_of e.now) job.now o) }
{
    match box_step(alloc, s, e, job)? {
        Outcome::Halves(left, right) => Ok(Outcome::Halves(left, right)),
        Outcome::Leaf(kept) => Ok(Outcome::Leaf(kept.items().len() as u64)),
        Outcome::Skipped => Ok(Outcome::Skipped),
    }
}
