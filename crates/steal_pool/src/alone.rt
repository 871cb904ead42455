// One box, and all boxes below one. All geometry happens in `call_step`: it calls the step.
ghost use Rattle.std.specs.Prelude.{◌≡◌, All, IfOk, OnOk};
ghost use Rattle.crossbeam_deque.specs.Handles.{worker_view};
ghost use Rattle.steal_pool.specs.Protocol.{IsDrain};
ghost use Rattle.steal_pool.specs.Owners.{Lent, AddsDrained};
ghost use Rattle.steal_pool.specs.Steps.{RunsVisited, OutcomeFits, IsPart, AreHalves, EndsBox, AddsBox, KeepsHalves, KeepsHalvesAnd};

use crate::gate::Gate;
use crate::heap_jobs::{HalfJobs, HeapJob};
use crate::names::{BoxWeight, VisitedJobs};
use crate::output::Output;
use crate::protocol::{Drained, Owner};
use ember_job::{Entry, Job, Kind, Outcome};
use ember_model::OutOfMemory;
use ember_tree::Part;
use std::alloc::Global;
use std::sync::Wait;

// Calls the step at a visited box: what becomes of the box? `call` is the step's closure, such as
// the one in the macro `run_query!` of ember_query that calls `text_step`.
fn call_step<K: VisitedJobs + BoxWeight<I>, I, F: Fn(&Job) -> Result<Outcome<I>, OutOfMemory>>(
    call: &F,
    job: &Job,
) -> Result<Outcome<I>, OutOfMemory>
    requires call { RunsVisited K.is_visited K.answers K.weight F.pre F.post call.now }
    requires job { K.is_visited job.now }
    ensures { IfOk result (OutcomeFits K.is_visited K.answers K.weight job.now) }
{
    call(job)
}

/// Calls the step at a box, which decides what becomes of it and makes the item of a leaf. Enters
/// the box into the journal, adds the item to the parts, and returns the halves, if any: they are
/// still to be run. The only error is out-of-memory.
// The halves' jobs are moved to the heap before this function returns, so each level of `run_below`
// takes little stack.
#[tactic(auto, using(crate::proofs::DequeSteps::weigh_append))]
pub fn run_step<
    K: VisitedJobs + BoxWeight<I>,
    I: Drop,
    F: Fn(&Job) -> Result<Outcome<I>, OutOfMemory>,
    G: Gate,
>(
    alloc: Global,
    call: &F,
    gate: &G,
    job: &Job,
    output: &mut Output<I>,
) -> Result<Option<HalfJobs>, OutOfMemory>
    requires call { RunsVisited K.is_visited K.answers K.weight F.pre F.post call.now }
    requires job { K.is_visited job.now }
    requires parts { All (IsPart K.is_visited K.answers) output.old.parts.items }
    ensures parts { OnOk result (All (IsPart K.is_visited K.answers) output.new.parts.items) }
    ensures halves { IfOk result (AreHalves K.is_visited job.now) }
    ensures ends { IfOk result (EndsBox K.weight job.now output.old output.new) }
{
    let path = job.cell.path();
    gate.enter(path);
    match call_step::<K, I, F>(call, job)? {
        Outcome::Leaf(item) => {
            let kind = Kind::Leafed;
            output.journal.push(Entry { path, kind })?;
            output.parts.push(Part { path, item })?;
            Ok(None)
        }
        Outcome::Skipped => {
            let kind = Kind::Passed;
            output.journal.push(Entry { path, kind })?;
            Ok(None)
        }
        Outcome::Halves(left, right) => {
            let kind = Kind::Halved;
            output.journal.push(Entry { path, kind })?;
            let left = HeapJob::new(alloc, left)?;
            let right = HeapJob::new(alloc, right)?;
            Ok(Some(HalfJobs { left, right }))
        }
    }
}

/// Runs a box and all below it, left half first. The only error is out-of-memory.
#[tactic(auto, using(crate::proofs::DequeSteps::weigh_append))]
pub fn run_below<
    K: VisitedJobs + BoxWeight<I>,
    I: Drop,
    F: Fn(&Job) -> Result<Outcome<I>, OutOfMemory>,
    G: Gate,
>(
    alloc: Global,
    call: &F,
    gate: &G,
    job: HeapJob,
    output: &mut Output<I>,
) -> Result<(), OutOfMemory>
    requires call { RunsVisited K.is_visited K.answers K.weight F.pre F.post call.now }
    requires job { K.is_visited job }
    requires parts { All (IsPart K.is_visited K.answers) output.old.parts.items }
    ensures parts { OnOk result (All (IsPart K.is_visited K.answers) output.new.parts.items) }
    ensures stays { OnOk result (KeepsHalvesAnd job.cell.path output.old output.new) }
    ensures sums { OnOk result (AddsBox K.weight job output.old output.new) }
{
    let halves = run_step::<K, I, F, G>(alloc, call, gate, job.job(), output)?;
    let Some(halves) = halves else {
        return Ok(());
    };
    run_below::<K, I, F, G>(alloc, call, gate, halves.left, output)?;
    run_below::<K, I, F, G>(alloc, call, gate, halves.right, output)
}

// Pops the job that was pushed last. All passes are back, so `None` proves that all pushed jobs
// were taken.
fn drain_next<K: VisitedJobs>(owner: &mut Owner<K>) -> Option<HeapJob>
    requires { Lent 0 (worker_view owner.old) }
    ensures { IsDrain K.is_visited result (worker_view owner.old) (worker_view owner.new) }
{
    owner.pop_as::<Drained<K>>()
}

/// Runs all jobs that are left in a deque, with all boxes below them. Requires that all passes on
/// the deque are back. The only error is out-of-memory.
// `forever` has no end, so only a return leaves the loop.
#[tactic(auto, using(crate::proofs::DequeSteps::weigh_append, crate::proofs::AccountSums::drained_one))]
pub fn drain<
    R: Wait,
    K: VisitedJobs + BoxWeight<I>,
    I: Drop,
    F: Fn(&Job) -> Result<Outcome<I>, OutOfMemory>,
    G: Gate,
>(
    rt: &R,
    alloc: Global,
    call: &F,
    gate: &G,
    mut owner: Owner<K>,
    output: &mut Output<I>,
) -> Result<(), OutOfMemory>
    requires call { RunsVisited K.is_visited K.answers K.weight F.pre F.post call.now }
    requires owner { Lent 0 (worker_view owner) }
    requires parts { All (IsPart K.is_visited K.answers) output.old.parts.items }
    ensures parts { OnOk result (All (IsPart K.is_visited K.answers) output.new.parts.items) }
    ensures stays { OnOk result (KeepsHalves output.old output.new) }
    ensures sums { OnOk result (AddsDrained K.weight (worker_view owner) output.old output.new) }
{
    for _ in rt.forever() {
        let Some(job) = drain_next(&mut owner) else {
            return Ok(());
        };
        run_below::<K, I, F, G>(alloc, call, gate, job, output)?;
    }
    unreachable!()
}
