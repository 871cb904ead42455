// Runs of a step, by this thread alone or by many workers. The step itself is called in `run_step`
// (alone.rt).
ghost use Rattle.std.specs.Prelude.{◌≡◌, ◌+◌, ◌≤◌, ◌++◌, ◌∷◌, [], IfOk, All, length};
ghost use Rattle.ember_box.specs.Boxes as boxes;
ghost use Rattle.ember_job.specs.Works.{AnswersAll};
ghost use Rattle.steal_pool.specs.Steps.{RunsVisited, IsPart};
ghost use Rattle.steal_pool.specs.States.{HoldsTree};
ghost use Rattle.steal_pool.specs.RunJournals.{RunJournals};
ghost use Rattle.steal_pool.specs.Journals.{KeepRules, AreParts, journal_of};

use crate::alone::run_below;
use crate::gate::Gate;
use crate::harvest::{Harvest, PartList};
use crate::heap_jobs::HeapJob;
use crate::names::{BoxWeight, VisitedJobs};
use crate::output::Output;
use crate::pool::run_named;
use ember_job::{Job, Journals, Outcome, Step, Work};
use ember_model::OutOfMemory;
use std::alloc::Global;
use std::marker::Brand;
use std::sync::Wait;
use std::thread::Threads;

// The run by this thread alone. No code reads the work. It is an argument because what the names of
// `K` mean at a call is chosen by the call's arguments (names.rt). In the clauses `++ [] ∷ []` adds
// the caller's journal, which is empty.
fn run_alone_named<
    K: VisitedJobs + BoxWeight<I>,
    W,
    I: Drop,
    F: Fn(&Job) -> Result<Outcome<I>, OutOfMemory>,
    G: Gate,
>(alloc: Global, root: Job, _work: &W, call: &F, gate: &G) -> Result<Harvest<I>, OutOfMemory>
    requires call { RunsVisited K.is_visited K.answers K.weight F.pre F.post call.now }
    requires root { K.is_visited root }
    ensures count { IfOk result (λ v. (length v.journals ≡ 1) × (v.left ≡ 0)) }
    ensures parts { IfOk result (λ v. All (IsPart K.is_visited K.answers) v.parts) }
    ensures journals { IfOk result (λ v. RunJournals root.cell.path 1 (v.journals ++ [] ∷ []) 0) }
    ensures sums { IfOk result (λ v. HoldsTree K.weight root (v.journals ++ [] ∷ []) v.parts) }
{
    let journal = Vec::new(alloc);
    let parts = Vec::new(alloc);
    let mut output = Output { journal, parts };
    let heap_job = HeapJob::new(alloc, root)?;
    run_below::<K, I, F, G>(alloc, call, gate, heap_job, &mut output)?;
    let Output { journal, parts } = output;
    let mut journals = Vec::new(alloc);
    journals.push(journal)?;
    Ok(Harvest {
        parts: PartList::of(parts),
        journals: Journals::of(journals),
        left: 0,
    })
}

/// Runs the root and all that is visited below it, in this thread alone, left halves first, and
/// enters the gate before each box. The root is a valid job of the root box. There is one journal,
/// that of worker 0, and nothing is left to the caller: the clause `journals` adds an empty one for
/// it, `[] ∷ []`. This call makes no deque and waits for nobody. The only error is out-of-memory.
pub fn run_alone<W: Work, F: Fn(&Job) -> Result<Outcome<W::Item>, OutOfMemory>, G: Gate>(
    alloc: Global,
    root: Job,
    step: &Step<W, F>,
    gate: &G,
) -> Result<Harvest<W::Item>, OutOfMemory>
where
    W::Item: Drop,
    requires step { AnswersAll W.valid W.shape W.item F.pre F.post step.now.work step.now.call }
    requires root { W.valid step.now.work root }
    requires cell { root.cell ≡ boxes.root }
    ensures count { IfOk result (λ v. (length v.journals ≡ 1) × (v.left ≡ 0)) }
    ensures parts { IfOk result (λ v. AreParts (W.shape step.now.work) (W.item step.now.work) root v.parts) }
    ensures journals { IfOk result (λ v. KeepRules (W.shape step.now.work) root 1 (v.journals ++ [] ∷ [])) }
{
    let harvest = run_alone_named::<Brand, W, W::Item, F, G>(
        alloc, root, &step.work, &step.call, gate,
    )?;
    Ok(harvest)
}

/// Runs the root and all that is visited below it by 1 to 64 `workers` and, after them, the caller,
/// and enters the gate before each box. The root is a valid job of the root box. There are `workers
/// + 1` journals; the last is the caller's, and `left` is its length. The only error is
/// out-of-memory.
pub fn run_tree<
    R: Threads + Wait + Sync,
    W: Work + Sync,
    F: Fn(&Job) -> Result<Outcome<W::Item>, OutOfMemory> + Sync,
    G: Gate + Sync,
>(
    rt: &R,
    alloc: Global,
    workers: u32,
    root: Job,
    step: &Step<W, F>,
    gate: &G,
) -> Result<Harvest<W::Item>, OutOfMemory>
where
    W::Item: Drop + Send,
    requires step { AnswersAll W.valid W.shape W.item F.pre F.post step.now.work step.now.call }
    requires workers { (1 ≤ workers) × (workers ≤ 64) }
    requires root { W.valid step.now.work root }
    requires cell { root.cell ≡ boxes.root }
    ensures count { IfOk result (λ v. length v.journals ≡ workers + 1) }
    ensures left { IfOk result (λ v. v.left ≡ length (journal_of workers v.journals)) }
    ensures parts { IfOk result (λ v. AreParts (W.shape step.now.work) (W.item step.now.work) root v.parts) }
    ensures journals { IfOk result (λ v. KeepRules (W.shape step.now.work) root workers v.journals) }
{
    let harvest = run_named::<R, Brand, W, W::Item, F, G>(
        rt, alloc, workers, root, &step.work, &step.call, gate,
    )?;
    Ok(harvest)
}
