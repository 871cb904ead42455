// The faces of what a box writes, in memory.
ghost use Rattle.std.specs.Prelude.{IfOk};
ghost use Rattle.ember_expr.specs.Formula.{formula_of};
ghost use Rattle.ember_step.specs.Faces.{AnswersByFaces};
ghost use Rattle.ember_visit.specs.Jobs.{IsJob};

use crate::step::box_step;
use ember_expr::Expr;
use ember_job::{Job, OneItem, Outcome, Work};
use ember_model::{FaceList, OutOfMemory, Scene};
use ember_text::outline_faces;
use std::alloc::Global;

/// The Boolean of an expression over a scene as faces in memory: the work whose item for a leaf is
/// the list of faces that the text of its written regions holds. `ember-mesh` uses it.
#[derive(Drop)]
pub struct FaceWork<'a> {
    pub scene: &'a Scene,
    pub expr: &'a Expr,
}

impl<'a> Work for FaceWork<'a> {
    ghost use Rattle.ember_expr.specs.Formula.{formula_of};
    ghost use Rattle.ember_step.specs.Faces.{AreBoxFaces};
    ghost use Rattle.ember_visit.specs.Jobs.{IsJob};
    ghost use Rattle.ember_visit.specs.Values.{shape as shape_of};
    ghost use Rattle.ember_visit.proofs.Laws.{halves_are_jobs, halves_are_split};

    type Item = FaceList;

    ghost valid = { λ w job. IsJob w.scene.now.tris job };

    ghost shape = { λ w job. shape_of w.scene.now.tris (formula_of w.expr.now) job };

    ghost item = { λ w job faces. AreBoxFaces w.scene.now.tris (formula_of w.expr.now) job.cell faces };

    ghost halves_valid = { λ w job low high v e. halves_are_jobs w.scene.now.tris
        (formula_of w.expr.now) job low high w.scene.now.meshes w.scene.now.kept v e };

    ghost halves_split = { λ w job low high v e. halves_are_split w.scene.now.tris
        (formula_of w.expr.now) job low high e };
}

impl<'a> OneItem for FaceWork<'a> {
    ghost use Rattle.ember_expr.specs.Formula.{formula_of};
    ghost use Rattle.ember_leaf.proofs.WrittenRegionsUnique.{written_in_unique};
    ghost use Rattle.ember_step.specs.Faces.{one_list};

    ghost one_item = { λ w job one other a b. one_list (λ us vs.
        written_in_unique w.scene.now.tris
        (formula_of w.expr.now) w.scene.now.meshes w.scene.now.kept job.cell us vs) a b };
}

/// The same as `box_step`, but a leaf gives the faces that the text of its written regions holds.
/// No text is made. The only error is out-of-memory.
pub fn faces_step(
    alloc: Global,
    s: &Scene,
    e: &Expr,
    job: &Job,
) -> Result<Outcome<FaceList>, OutOfMemory>
    requires { IsJob s.now.tris job.now }
    ensures { IfOk result (λ o. AnswersByFaces s.now.tris (formula_of e.now) job.now o) }
{
    match box_step(alloc, s, e, job)? {
        Outcome::Halves(left, right) => Ok(Outcome::Halves(left, right)),
        Outcome::Leaf(kept) => {
            let faces = outline_faces(alloc, kept.items())?;
            Ok(Outcome::Leaf(FaceList::of(faces)))
        }
        Outcome::Skipped => Ok(Outcome::Skipped),
    }
}
