// What one worker does.
ghost use Rattle.std.specs.Prelude.{◌≡◌, ◌+◌, ◌≤◌, true, [], ◌∷◌, ℕ, IfOk, IfSome, OnOk, All, MatchOption};
ghost use Rattle.crossbeam_deque.specs.Handles.{view, IsPassOf, worker_deque, stealer_deque, worker_view};
ghost use Rattle.ember_job.specs.declared.job.Job.{Job};
ghost use Rattle.ember_job.specs.Weights.{weigh};
ghost use Rattle.steal_pool.specs.Protocol.{IsPush, IsTake};
ghost use Rattle.steal_pool.specs.Steps.{RunsVisited, EachPass, StealsOne, Shares};
ghost use Rattle.steal_pool.specs.Workers.{IsSound, HasFinished, Balances, Releases, account};

use crate::alone::run_step;
use crate::gate::Gate;
use crate::heap_jobs::HeapJob;
use crate::names::{BoxWeight, VisitedJobs};
use crate::progress::Progress;
use crate::protocol::{HandleView, JobStealer, Owner, Pushed, Taken};
use crate::state::WorkerState;
use crossbeam_deque::{Pass, Steal};
use ember_job::{Job, Outcome};
use ember_model::OutOfMemory;
use std::alloc::{AllocError, Global};
use std::sync::Wait;

// Pushes a job, or hands it back.
fn push<K: VisitedJobs>(owner: &mut Owner<K>, job: HeapJob) -> Result<(), HeapJob>
    requires owns { (worker_view owner.old).owns ≡ true }
    requires visited { K.is_visited job }
    ensures deque { worker_deque owner.new ≡ worker_deque owner.old }
    ensures view { IsPush job result (worker_view owner.old) (worker_view owner.new) }
{
    owner.push_as::<Pushed>(job)
}

// Pops the job that was pushed last.
fn pop<K: VisitedJobs>(owner: &mut Owner<K>) -> Option<HeapJob>
    requires { (worker_view owner.old).owns ≡ true }
    ensures deque { worker_deque owner.new ≡ worker_deque owner.old }
    ensures view { IsTake K.is_visited result (worker_view owner.old) (worker_view owner.new) }
{
    owner.pop_as::<Taken<K>>()
}

// Steals the job that was pushed first. `None` if there is none, or if another worker was faster.
fn steal<K: VisitedJobs>(
    stealer: &JobStealer<K>,
    pass: &mut Pass<HeapJob, HandleView>,
) -> Option<HeapJob>
    requires pass { IsPassOf (stealer_deque stealer.now) pass.old × ((view pass.old).lent ≡ 1) }
    ensures pass { IsPassOf (stealer_deque stealer.now) pass.new × ((view pass.new).lent ≡ 1) }
    ensures view { IsTake K.is_visited result (view pass.old) (view pass.new) }
{
    match stealer.steal_as::<Taken<K>>(pass) {
        Steal::Success(job) => Some(job),
        Steal::Empty => None,
        Steal::Retry => None,
    }
}

// Steals from the deque with this index.
fn steal_from<K: VisitedJobs>(
    stealers: &Vec<JobStealer<K>>,
    passes: &mut Vec<Pass<HeapJob, HandleView>>,
    from: usize,
) -> Option<HeapJob>
    requires each { EachPass stealers.now.items passes.old.items }
    ensures each { EachPass stealers.now.items passes.new.items }
    ensures taken { StealsOne K.is_visited result passes.old.items passes.new.items }
{
    if from >= passes.len() {
        return None;
    }
    let stealer = &stealers[from];
    let pass = &mut passes[from];
    steal(stealer, pass)
}

// Pushes a job, or keeps it in hand if the deque can't grow.
#[tactic(auto, using(crate::proofs::DequeSteps::weigh_append))]
fn share<K: VisitedJobs>(
    owner: &mut Owner<K>,
    hand: &mut Vec<HeapJob>,
    job: HeapJob,
) -> Result<(), OutOfMemory>
    requires owns { (worker_view owner.old).owns ≡ true }
    requires visited { K.is_visited job × All K.is_visited hand.old.items }
    ensures deque { worker_deque owner.new ≡ worker_deque owner.old }
    ensures visited { OnOk result (All K.is_visited hand.new.items) }
    ensures shares { OnOk result (Shares job (worker_view owner.old) (worker_view owner.new) hand.old hand.new) }
{
    let Err(job) = push(owner, job) else {
        return Ok(());
    };
    hand.push(job)?;
    Ok(())
}

// Runs a box: calls the step and enters the box into the journal (`run_step`). If it is halved, its
// left half goes to the hand and its right half to the deque; otherwise it is finished.
#[tactic(auto, using(crate::proofs::DequeSteps::weigh_append))]
fn run_box<
    K: VisitedJobs + BoxWeight<I>,
    I: Drop,
    F: Fn(&Job) -> Result<Outcome<I>, OutOfMemory>,
    G: Gate,
>(
    alloc: Global,
    call: &F,
    gate: &G,
    progress: &Progress,
    worker: &mut WorkerState<K, I>,
    job: HeapJob,
) -> Result<(), OutOfMemory>
    requires call { RunsVisited K.is_visited K.answers K.weight F.pre F.post call.now }
    requires job { K.is_visited job }
    requires sound { IsSound K.is_visited K.answers worker.old }
    ensures passes { worker.new.passes ≡ worker.old.passes }
    ensures deque { worker_deque worker.new.owner ≡ worker_deque worker.old.owner }
    ensures sound { OnOk result (IsSound K.is_visited K.answers worker.new) }
    ensures balance { OnOk result (Balances K.weight (job ∷ []) (account worker.old) (account worker.new)) }
{
    let halves = run_step::<K, I, F, G>(alloc, call, gate, job.job(), &mut worker.output)?;
    let Some(halves) = halves else {
        progress.add(job.job().cell.path());
        return Ok(());
    };
    share(&mut worker.owner, &mut worker.hand, halves.right)?;
    worker.hand.push(halves.left)?;
    Ok(())
}

// Takes a job from the hand, otherwise from the own deque, otherwise from the deque with the index
// `from`. `from` may be the own deque too, since the round goes over all of them; that one was just
// found empty, so it gives nothing.
#[tactic(auto, using(crate::proofs::DequeSteps::weigh_append))]
fn next_job<K: VisitedJobs + BoxWeight<I>, I>(
    stealers: &Vec<JobStealer<K>>,
    from: usize,
    worker: &mut WorkerState<K, I>,
) -> Option<HeapJob>
    requires each { EachPass stealers.now.items worker.old.passes.items }
    requires sound { IsSound K.is_visited K.answers worker.old }
    ensures deque { worker_deque worker.new.owner ≡ worker_deque worker.old.owner }
    ensures each { EachPass stealers.now.items worker.new.passes.items }
    ensures sound { IsSound K.is_visited K.answers worker.new }
    ensures job { IfSome result K.is_visited }
    ensures balance { Releases K.weight result (account worker.old) (account worker.new) }
{
    if let Some(job) = worker.hand.pop() {
        return Some(job);
    }
    if let Some(job) = pop(&mut worker.owner) {
        return Some(job);
    }
    steal_from(stealers, &mut worker.passes, from)
}

// The index of the deque to steal from after this one. After the last comes the first.
fn next_deque(from: usize, count: usize) -> usize {
    let last = count.saturating_sub(1);
    if from < last { from + 1 } else { 0 }
}

/// Runs boxes until the finished ones make up the root. The error means that memory was short, here
/// or for another worker.
// `forever` has no end, so only a return leaves the loop.
#[tactic(auto, using(crate::proofs::AccountSums::balances_then, crate::proofs::AccountSums::released_balances, crate::proofs::AccountSums::none_balances))]
pub fn run_until_done<
    R: Wait,
    K: VisitedJobs + BoxWeight<I>,
    I: Drop,
    F: Fn(&Job) -> Result<Outcome<I>, OutOfMemory>,
    G: Gate,
>(
    rt: &R,
    alloc: Global,
    call: &F,
    gate: &G,
    stealers: &Vec<JobStealer<K>>,
    progress: &Progress,
    worker: &mut WorkerState<K, I>,
) -> Result<(), OutOfMemory>
    requires call { RunsVisited K.is_visited K.answers K.weight F.pre F.post call.now }
    requires each { EachPass stealers.now.items worker.old.passes.items }
    requires sound { IsSound K.is_visited K.answers worker.old }
    ensures { OnOk result (HasFinished K.is_visited K.answers K.weight stealers.now.items worker.old worker.new) }
{
    let mut from = 0usize;
    let mut rounds = 0u32;
    for _ in rt.forever() {
        if progress.is_stopped() {
            return Err(AllocError);
        }
        if let Some(job) = next_job(stealers, from, worker) {
            rounds = 0;
            run_box(alloc, call, gate, progress, worker, job)?;
            continue;
        }
        if progress.is_whole() {
            return Ok(());
        }
        from = next_deque(from, stealers.len());
        if from == 0 {
            rounds = rounds.saturating_add(1);
            progress.back_off(rt, rounds);
        }
    }
    unreachable!()
}
