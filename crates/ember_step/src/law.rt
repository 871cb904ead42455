// The laws of the written regions: the visited leaves write all of them, and they are one list.
ghost use Rattle.std.specs.Prelude.{ℕ, List};
ghost use Rattle.ember_model.specs.declared.tri.Tri.{Tri as TriView};
ghost use Rattle.ember_model.specs.Limits.{most_meshes};
ghost use Rattle.ember_model.specs.Meshes.{IsScene};
ghost use Rattle.ember_expr.specs.Formula.{Formula, formula_of};
ghost use Rattle.ember_leaf.specs.Scenes.{IsWritten};
ghost use Rattle.ember_step.specs.Faces.{LeafFacesJoin};
ghost use Rattle.ember_step.specs.Leaves.{HasOneList, KnownBoxesHaveOneValue, LeavesWriteOneList};
ghost use Rattle.ember_step.specs.Leaves.{OneValueWritesNothing, SidesHaveOneValue, VisitedLeavesWriteAll};
ghost use Rattle.ember_step.specs.Outlines.{LeafOutlinesJoin};
ghost use Rattle.ember_step.specs.Texts.{LeafTextsJoin};
ghost use Rattle.ember_width.specs.Scenes.{IsSceneWithin};

use ember_expr::{Expr, tree};
use ember_model::{Scene, Tri};
use ember_width::Width;

/// If the value of a box is known, the expression has one value in the box and directly beside
/// it. So it has one value on both sides of each region of a leaf there, and none is written.
pub fn known_boxes_write_nothing()
    ensures value { (ts : List TriView) (meshes : ℕ) → IsScene ts meshes → KnownBoxesHaveOneValue ts }
    ensures sides { (ts : List TriView) (meshes : ℕ) → IsScene ts meshes → SidesHaveOneValue ts }
    ensures nothing { (ts : List TriView) (meshes : ℕ) → IsScene ts meshes → OneValueWritesNothing ts }
{}

/// What the visited leaves of a Boolean write, one after another, is what all leaves of the full
/// tree write.
pub fn visited_leaves_write_all(_s: &Scene, e: &Expr)
    ensures { VisitedLeavesWriteAll _s.now.tris (formula_of e.now) }
{
    // Called only for its clause `fit`, which the prover then knows of `e`.
    tree(e);
}

/// The texts of the visited leaves of a Boolean, one after another, are the text of the written
/// regions of its scene.
pub fn leaf_texts_join(_s: &Scene, e: &Expr)
    ensures { LeafTextsJoin _s.now.tris (formula_of e.now) }
{
    // Called only for its clause `fit`, which the prover then knows of `e`.
    tree(e);
}

/// The faces of the visited leaves of a Boolean, one list after another, are the faces of the
/// written regions of its scene, as their text holds them.
pub fn leaf_faces_join(_s: &Scene, e: &Expr)
    ensures { LeafFacesJoin _s.now.tris (formula_of e.now) }
{
    // Called only for its clause `fit`, which the prover then knows of `e`.
    tree(e);
}

/// On each grid, the faces of the outlines of the visited leaves, one list after another, are those of
/// the written regions of the scene.
pub fn leaf_outlines_join<W: Width>(_tris: &[Tri], e: &Expr)
    requires { IsSceneWithin W.corner _tris.now most_meshes }
    ensures { LeafOutlinesJoin W.Width _tris.now (formula_of e.now) }
{
    // Called only for its clause `fit`, which the prover then knows of `e`.
    tree(e);
}

/// The written regions of a leaf are one list, and so are those of a scene.
pub fn written_regions_are_one_list()
    ensures leaf { (ts : List TriView) (meshes : ℕ) → IsScene ts meshes → LeavesWriteOneList ts }
    ensures scene { (ts : List TriView) (meshes : ℕ) (f : Formula) → IsScene ts meshes → HasOneList (IsWritten ts f) }
{}
