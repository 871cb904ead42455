// All workers at once.
ghost use Rattle.std.specs.Prelude.{◌≡◌, true, OnOk, All, length};
ghost use Rattle.steal_pool.specs.Steps.{RunsVisited};
ghost use Rattle.steal_pool.specs.Workers.{IsReady, FinishesIfDone, EachFinishesIfDone, AllFinish};

use crate::gate::Gate;
use crate::names::{BoxWeight, VisitedJobs};
use crate::progress::Progress;
use crate::protocol::JobStealer;
use crate::state::WorkerState;
use crate::worker::run_until_done;
use ember_job::{Job, Outcome};
use ember_model::OutOfMemory;
use std::alloc::{AllocError, Global};
use std::sync::Wait;
use std::thread;
use std::thread::Threads;

// A worker's run. If memory is short, it makes the other workers stop.
fn run_worker<
    R: Wait,
    K: VisitedJobs + BoxWeight<I>,
    I: Drop,
    F: Fn(&Job) -> Result<Outcome<I>, OutOfMemory>,
    G: Gate,
>(
    rt: &R,
    alloc: Global,
    call: &F,
    gate: &G,
    stealers: &Vec<JobStealer<K>>,
    progress: &Progress,
    worker: &mut WorkerState<K, I>,
)
    requires call { RunsVisited K.is_visited K.answers K.weight F.pre F.post call.now }
    requires ready { IsReady K.is_visited K.answers stealers.now.items worker.old }
    ensures { FinishesIfDone K.is_visited K.answers K.weight stealers.now.items worker.old worker.new }
{
    match run_until_done(rt, alloc, call, gate, stealers, progress, worker) {
        Ok(()) => worker.done = true,
        Err(AllocError) => {
            worker.done = false;
            progress.stop();
        }
    }
}

// Runs all workers at once. `for_each_mut` runs half of them in a new thread at each step, so the
// stack grows as the logarithm of their number. The last worker runs in this thread, and before the
// others if no thread can be started.
fn run_each<
    R: Threads + Wait + Sync,
    K: VisitedJobs + BoxWeight<I> + Send + Sync,
    I: Drop + Send,
    F: Fn(&Job) -> Result<Outcome<I>, OutOfMemory> + Sync,
    G: Gate + Sync,
>(
    rt: &R,
    alloc: Global,
    call: &F,
    gate: &G,
    stealers: &Vec<JobStealer<K>>,
    progress: &Progress,
    workers: &mut [WorkerState<K, I>],
)
    requires call { RunsVisited K.is_visited K.answers K.weight F.pre F.post call.now }
    requires ready { All (IsReady K.is_visited K.answers stealers.now.items) workers.old }
    ensures len { length workers.new ≡ length workers.old }
    ensures each { EachFinishesIfDone K.is_visited K.answers K.weight stealers.now.items workers.old workers.new }
{
    let one = move |_: usize, state: &mut WorkerState<K, I>|
        requires call { RunsVisited K.is_visited K.answers K.weight F.pre F.post call.now }
        requires ready { IsReady K.is_visited K.answers stealers.now.items state.now }
        ensures { FinishesIfDone K.is_visited K.answers K.weight stealers.entry.now.items state.entry.now
            state.exit.now }
    { run_worker(rt, alloc, call, gate, stealers, progress, state) };
    // At most one thread for each worker. The library wants at least one thread, even for no worker.
    thread::for_each_mut(rt, workers, workers.len().max(1), &one);
}

// `true` only if each worker is done.
fn are_done<K: VisitedJobs, I>(workers: &[WorkerState<K, I>]) -> bool
    ensures { result ≡ true → All (λ s. s.done ≡ true) workers.now }
{
    for i in 0..workers.len() {
        if !workers[i].done {
            return false;
        }
    }
    true
}

/// Runs all workers to their end. The error means that memory was short in one of them.
pub fn run_workers<
    R: Threads + Wait + Sync,
    K: VisitedJobs + BoxWeight<I> + Send + Sync,
    I: Drop + Send,
    F: Fn(&Job) -> Result<Outcome<I>, OutOfMemory> + Sync,
    G: Gate + Sync,
>(
    rt: &R,
    alloc: Global,
    call: &F,
    gate: &G,
    stealers: &Vec<JobStealer<K>>,
    workers: &mut Vec<WorkerState<K, I>>,
) -> Result<(), OutOfMemory>
    requires call { RunsVisited K.is_visited K.answers K.weight F.pre F.post call.now }
    requires ready { All (IsReady K.is_visited K.answers stealers.now.items) workers.old.items }
    ensures { OnOk result (AllFinish K.is_visited K.answers K.weight stealers.now.items workers.old workers.new) }
{
    let progress = Progress::new();
    run_each(rt, alloc, call, gate, stealers, &progress, workers);
    if are_done(workers) {
        Ok(())
    } else {
        Err(AllocError)
    }
}
