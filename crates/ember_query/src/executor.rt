// Who runs the boxes: the calling thread alone, or several workers. `run_alone` and `run_tree` of
// steal_pool run them, and call the closure of the step for each box. `run_query!` below makes the
// root's job and writes this closure. It calls the step of the query, such as `text_step`, where the
// geometry of each box begins.
ghost use Rattle.std.specs.Prelude.{◌≡◌, ◌≤◌, IfOk};
ghost use Rattle.ember_box.specs.Boxes as boxes;
ghost use Rattle.ember_job.specs.Visited.{leaves};
ghost use Rattle.ember_job.specs.Works.{AnswersAll};
ghost use Rattle.ember_report.specs.Runs.{AreJournalsOf};
ghost use Rattle.ember_query.specs.Queries.{IsAnswer, IsQuery};
ghost use Rattle.ember_job.specs.Items.{EachAnswers};

use crate::query::{Answer, Query, RunResult};
use ember_job::{Job, Outcome, Step, Work};
use ember_model::OutOfMemory;
use ember_pairs::{PairWork, pair_step, root_pairs};
use ember_step::{
    CountWork, FaceWork, OutlineWork, TextWork, count_step, faces_step, outlines_step, text_step,
};
use ember_tree::merge;
use ember_visit::{root_job, root_job_among};
use ember_voxel::{VoxelWork, voxel_step};
use ember_width::Broad;
use std::alloc::Global;
use std::marker::PhantomData;
use std::sync::Wait;
use std::thread::Threads;
use steal_pool::{Gate, Harvest, merged_items_answer_the_leaves, run_alone, run_tree};

// The items of the leaves below the root, in the order of the tree. This thread alone runs the
// boxes.
pub(crate) fn results_alone<W: Work, F: Fn(&Job) -> Result<Outcome<W::Item>, OutOfMemory>, G: Gate>(
    alloc: Global,
    gate: &G,
    root: Job,
    step: &Step<W, F>,
) -> Result<RunResult<W::Item>, OutOfMemory>
where
    W::Item: Drop,
    requires step { AnswersAll W.valid W.shape W.item F.pre F.post step.now.work step.now.call }
    requires root { W.valid step.now.work root }
    requires cell { root.cell ≡ boxes.root }
    ensures items { IfOk result (λ found.
        EachAnswers (W.item step.now.work) (leaves (W.shape step.now.work) root) found.items.items) }
    ensures journals { IfOk result (λ found. AreJournalsOf (W.shape step.now.work) root found.journals) }
{
    let harvest = run_alone(alloc, root, step, gate)?;
    let journals = harvest.journals;
    let items = merge(alloc, harvest.parts.into_vec())?;
    // A law, which does nothing: the merged items answer the leaves in their order.
    merged_items_answer_the_leaves(&step.work);
    Ok(RunResult { items, journals })
}

// The items of the leaves below the root, in the order of the tree. 1 to 64 workers run the boxes.
// If there is one, this thread runs all.
fn results_by_workers<
    R: Threads + Wait + Sync,
    W: Work + Sync,
    F: Fn(&Job) -> Result<Outcome<W::Item>, OutOfMemory> + Sync,
    G: Gate + Sync,
>(
    rt: &R,
    alloc: Global,
    workers: u32,
    gate: &G,
    root: Job,
    step: &Step<W, F>,
) -> Result<RunResult<W::Item>, OutOfMemory>
where
    W::Item: Drop + Send,
    requires workers { (1 ≤ workers) × (workers ≤ 64) }
    requires step { AnswersAll W.valid W.shape W.item F.pre F.post step.now.work step.now.call }
    requires root { W.valid step.now.work root }
    requires cell { root.cell ≡ boxes.root }
    ensures items { IfOk result (λ found.
        EachAnswers (W.item step.now.work) (leaves (W.shape step.now.work) root) found.items.items) }
    ensures journals { IfOk result (λ found. AreJournalsOf (W.shape step.now.work) root found.journals) }
{
    if workers == 1 {
        return results_alone(alloc, gate, root, step);
    }
    let harvest = run_tree(rt, alloc, workers, root, step, gate)?;
    let journals = harvest.journals;
    let items = merge(alloc, harvest.parts.into_vec())?;
    // A law, which does nothing: the merged items answer the leaves in their order.
    merged_items_answer_the_leaves(&step.work);
    Ok(RunResult { items, journals })
}

// The answer to a query. `$run` is the call that runs the boxes below the root `$root` by the
// step `$step`: `results_alone` or `results_by_workers`. The closures have no clauses, so the
// contract of each is that of the call in it (`text_step`, and so on).
macro_rules! run_query {
    ($alloc:ident, $query:ident, | $root:ident, $step:ident | $run:expr) => {
        match *$query {
            Query::Pairs(scene) => {
                let $root = root_pairs($alloc, scene)?;
                let $step = Step {
                    work: PairWork { scene },
                    call: |job: &Job| pair_step($alloc, scene, job),
                };
                Ok(Answer::Pairs($run?.items))
            }
            Query::Fills(scene, expr, size) => {
                let $root = root_job($alloc, scene)?;
                let $step = Step {
                    work: VoxelWork { scene, expr, size },
                    call: |job: &Job| voxel_step($alloc, scene, expr, size, job),
                };
                Ok(Answer::Fills($run?.items))
            }
            Query::Texts(scene, expr) => {
                let $root = root_job($alloc, scene)?;
                let $step = Step {
                    work: TextWork { scene, expr },
                    call: |job: &Job| text_step($alloc, scene, expr, job),
                };
                Ok(Answer::Texts($run?))
            }
            Query::Faces(scene, expr) => {
                let $root = root_job($alloc, scene)?;
                let $step = Step {
                    work: FaceWork { scene, expr },
                    call: |job: &Job| faces_step($alloc, scene, expr, job),
                };
                Ok(Answer::Faces($run?))
            }
            Query::Counts(scene, expr) => {
                let $root = root_job($alloc, scene)?;
                let $step = Step {
                    work: CountWork { scene, expr },
                    call: |job: &Job| count_step($alloc, scene, expr, job),
                };
                Ok(Answer::Counts($run?))
            }
            Query::BroadOutlines(tris, expr) => {
                let $root = root_job_among::<Broad>($alloc, tris)?;
                let $step = Step {
                    work: OutlineWork {
                        tris,
                        expr,
                        width: PhantomData::<Broad>,
                    },
                    call: |job: &Job| outlines_step::<Broad>($alloc, tris, expr, job),
                };
                Ok(Answer::BroadOutlines($run?))
            }
        }
    };
}

/// The answer to a query. This thread alone runs the boxes, and calls the gate before each. The
/// only error is out-of-memory.
pub fn answer_alone<G: Gate>(alloc: Global, gate: &G, query: &Query) -> Result<Answer, OutOfMemory>
    requires { IsQuery query.now }
    ensures { IfOk result (IsAnswer query.now) }
{
    run_query!(
        alloc,
        query,
        |root, step| results_alone(alloc, gate, root, &step)
    )
}

/// The answer to a query. 1 to 64 workers run the boxes, and call the gate before each. One worker
/// is this thread: it makes no deque and starts no thread. The only error is out-of-memory.
pub fn answer_by_workers<R: Threads + Wait + Sync, G: Gate + Sync>(
    rt: &R,
    alloc: Global,
    workers: u32,
    gate: &G,
    query: &Query,
) -> Result<Answer, OutOfMemory>
    requires workers { (1 ≤ workers) × (workers ≤ 64) }
    requires query { IsQuery query.now }
    ensures { IfOk result (IsAnswer query.now) }
{
    run_query!(
        alloc,
        query,
        |root, step| results_by_workers(rt, alloc, workers, gate, root, &step)
    )
}
