// Queries and their answers.
//
// A command doesn't know who runs the boxes. It asks an `executor`, a closure from a query to its
// answer, that it gets from `run` or `run_one` (top.rt of ember_run). They make the closure of
// `answer_by_workers` or `answer_alone` (executor.rt). The macro `run_query!` there takes the
// root's job and the step of each query, and gives both to the pool. One closure answers queries of
// all six kinds, so it packs its answer into the enum `Answer`. The functions here ask it and
// unpack the answer; by `IsExecutor` the answer is of the query's kind, so `unreachable!` is proved
// never to run.
//
// It is a closure and not a trait, since the borrow checker doesn't accept the bounds `Sync` and
// `Send`, which starting a thread needs, on a trait's method (README.md).
ghost use Rattle.std.specs.Prelude.{◌≤◌, IfOk};
ghost use Rattle.ember_expr.specs.Formula.{formula_of};
ghost use Rattle.ember_model.specs.Limits.{broad_limit, most_meshes};
ghost use Rattle.ember_query.specs.BroadLeaves.{AreBroadOutlines, AreJournalsOnBroad};
ghost use Rattle.ember_query.specs.Leaves.{AreFills, ArePairsOfLeaves, AreRegionCounts};
ghost use Rattle.ember_query.specs.Queries.{IsExecutor};
ghost use Rattle.ember_meaning.specs.Regions.Solids.{AreJournalsOfSolid};
ghost use Rattle.ember_step.specs.Faces.{AreLeafFaces};
ghost use Rattle.ember_step.specs.Texts.{AreLeafTexts};
ghost use Rattle.ember_width.specs.Scenes.{IsSceneWithin};

use ember_expr::Expr;
use ember_job::Journals;
use ember_model::{FaceList, OutOfMemory, Scene, Tri};
use ember_pairs::PairList;
use ember_text::FacesText;
use ember_voxel::Fill;

/// What is asked of the leaves of a scene.
#[derive(Clone, Copy)]
pub enum Query<'a> {
    /// The pairs that meet in each leaf.
    Pairs(&'a Scene),
    /// The boxes of one value, down to cells with the side `2 ^ size`, for a size of 4 to 12.
    Fills(&'a Scene, &'a Expr, u8),
    /// The text of the written regions of each leaf.
    Texts(&'a Scene, &'a Expr),
    /// The faces of the written regions of each leaf, in memory.
    Faces(&'a Scene, &'a Expr),
    /// The number of written regions of each leaf.
    Counts(&'a Scene, &'a Expr),
    /// The faces of the outlines of the written regions of each leaf, for triangles of a scene on the
    /// broad grid.
    BroadOutlines(&'a [Tri], &'a Expr),
}

/// The items of the leaves, in the order of the tree, and the journals: which boxes were ended.
#[derive(Drop)]
pub struct RunResult<I> {
    pub items: Vec<I>,
    pub journals: Journals,
}

/// The answer to a query, of the same kind.
#[derive(Drop)]
pub enum Answer {
    Pairs(Vec<PairList>),
    Fills(Vec<Fill>),
    Texts(RunResult<FacesText>),
    Faces(RunResult<FaceList>),
    Counts(RunResult<u64>),
    BroadOutlines(RunResult<FaceList>),
}

/// Asks the executor for the pairs that meet in each leaf. The only error is out-of-memory.
pub fn query_pairs<C: Fn(&Query) -> Result<Answer, OutOfMemory>>(
    scene: &Scene,
    executor: &C,
) -> Result<Vec<PairList>, OutOfMemory>
    requires { IsExecutor C.pre C.post executor.now }
    ensures { IfOk result (λ items. ArePairsOfLeaves scene.now.tris items.items) }
{
    let Answer::Pairs(items) = executor(&Query::Pairs(scene))? else {
        unreachable!()
    };
    Ok(items)
}

/// Asks the executor for the boxes of one value, down to cells with the side `2 ^ size`, for a size
/// of 4 to 12. The only error is out-of-memory.
pub fn query_fills<C: Fn(&Query) -> Result<Answer, OutOfMemory>>(
    scene: &Scene,
    expr: &Expr,
    size: u8,
    executor: &C,
) -> Result<Vec<Fill>, OutOfMemory>
    requires least { 4 ≤ size }
    requires most { size ≤ 12 }
    requires executor { IsExecutor C.pre C.post executor.now }
    ensures { IfOk result (λ fills. AreFills scene.now.tris (formula_of expr.now) size fills.items) }
{
    let Answer::Fills(fills) = executor(&Query::Fills(scene, expr, size))? else {
        unreachable!()
    };
    Ok(fills)
}

/// Asks the executor for the text of the written regions of each leaf. The only error is
/// out-of-memory.
pub fn query_texts<C: Fn(&Query) -> Result<Answer, OutOfMemory>>(
    scene: &Scene,
    expr: &Expr,
    executor: &C,
) -> Result<RunResult<FacesText>, OutOfMemory>
    requires { IsExecutor C.pre C.post executor.now }
    ensures items { IfOk result (λ found. AreLeafTexts scene.now.tris (formula_of expr.now) found.items.items) }
    ensures journals { IfOk result (λ found. AreJournalsOfSolid scene.now.tris (formula_of expr.now) found.journals) }
{
    let Answer::Texts(found) = executor(&Query::Texts(scene, expr))? else {
        unreachable!()
    };
    Ok(found)
}

/// Asks the executor for the faces of the written regions of each leaf, as their text holds them. The
/// only error is out-of-memory.
pub fn query_faces<C: Fn(&Query) -> Result<Answer, OutOfMemory>>(
    scene: &Scene,
    expr: &Expr,
    executor: &C,
) -> Result<RunResult<FaceList>, OutOfMemory>
    requires { IsExecutor C.pre C.post executor.now }
    ensures items { IfOk result (λ found. AreLeafFaces scene.now.tris (formula_of expr.now) found.items.items) }
    ensures journals { IfOk result (λ found. AreJournalsOfSolid scene.now.tris (formula_of expr.now) found.journals) }
{
    let Answer::Faces(found) = executor(&Query::Faces(scene, expr))? else {
        unreachable!()
    };
    Ok(found)
}

/// Asks the executor for the number of written regions of each leaf. The only error is
/// out-of-memory.
pub fn query_counts<C: Fn(&Query) -> Result<Answer, OutOfMemory>>(
    scene: &Scene,
    expr: &Expr,
    executor: &C,
) -> Result<RunResult<u64>, OutOfMemory>
    requires { IsExecutor C.pre C.post executor.now }
    ensures items { IfOk result (λ found. AreRegionCounts scene.now.tris (formula_of expr.now) found.items.items) }
    ensures journals { IfOk result (λ found. AreJournalsOfSolid scene.now.tris (formula_of expr.now) found.journals) }
{
    let Answer::Counts(found) = executor(&Query::Counts(scene, expr))? else {
        unreachable!()
    };
    Ok(found)
}

/// Asks the executor for the faces of the outlines of the written regions of each leaf, for triangles of
/// a scene on the broad grid. The only error is out-of-memory.
pub fn query_broad_outlines<C: Fn(&Query) -> Result<Answer, OutOfMemory>>(
    tris: &[Tri],
    expr: &Expr,
    executor: &C,
) -> Result<RunResult<FaceList>, OutOfMemory>
    requires scene { IsSceneWithin broad_limit tris.now most_meshes }
    requires executor { IsExecutor C.pre C.post executor.now }
    ensures items { IfOk result (λ found. AreBroadOutlines tris.now (formula_of expr.now) found.items.items) }
    ensures journals { IfOk result (λ found. AreJournalsOnBroad tris.now (formula_of expr.now) found.journals) }
{
    let Answer::BroadOutlines(found) = executor(&Query::BroadOutlines(tris, expr))? else {
        unreachable!()
    };
    Ok(found)
}
