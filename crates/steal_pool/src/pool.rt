// A run by workers: makes the deques and the states of all workers, runs them, and takes apart what
// they leave.
ghost use Rattle.std.specs.Prelude.{◌≡◌, ◌+◌, ◌<◌, ◌≤◌, true, [], ◌∷◌, ◌++◌, ℕ, All, IfOk, OnOk, MatchOption, length, vec_len};
ghost use Rattle.crossbeam_deque.specs.Handles.{worker_deque, worker_view};
ghost use Rattle.ember_job.specs.declared.job.Job.{Job};
ghost use Rattle.steal_pool.specs.Protocol.{handle};
ghost use Rattle.steal_pool.specs.Owners.{EachOwner, Fresh, Lent, AllBack, EachRow, NewRow, AddsAllDrained, all_pushed, owners_taken, rows_taken};
ghost use Rattle.steal_pool.specs.Steps.{RunsVisited, IsPart, KeepsHalves};
ghost use Rattle.steal_pool.specs.Workers.{IsReady};
ghost use Rattle.steal_pool.specs.States.{EachState, MayLeave, IsNew, HandsOver, HoldRoot, Conserves, HoldsTree};
ghost use Rattle.steal_pool.specs.RunJournals.{LastHolds, WorkerJournals, RunJournals};

use crate::alone::drain;
use crate::gate::Gate;
use crate::harvest::{Harvest, PartList};
use crate::heap_jobs::HeapJob;
use crate::names::{BoxWeight, VisitedJobs};
use crate::output::Output;
use crate::owners::{absorb_each, lend_each};
use crate::protocol::{HandleView, JobStealer, Owner};
use crate::state::{WorkerOutputs, WorkerState};
use crate::threads::run_workers;
use crossbeam_deque::Pass;
use ember_job::{Job, Journals, Outcome};
use ember_model::OutOfMemory;
use ember_tree::Part;
use std::alloc::Global;
use std::sync::Wait;
use std::thread::Threads;

// The room of a new deque, which grows when it is full.
const DEQUE_ROOM: usize = 64;

// The room of a hand, so that holding a box needs no further memory. A worker takes a box from a
// deque only if its hand is empty. So even if all pushes are refused, a hand has at most 37 boxes:
// one left half, and one right half of each depth up to 36, the greatest depth. Three are to spare.
const HAND_ROOM: usize = 40;

/// All deques: of each the end from which others steal, and its owner's end.
#[derive(Drop)]
pub struct Deques<K: VisitedJobs> {
    pub stealers: Vec<JobStealer<K>>,
    pub owners: Vec<Owner<K>>,
}

// Makes a deque.
fn make_owner<K: VisitedJobs>(alloc: Global) -> Result<Owner<K>, OutOfMemory>
    ensures { IfOk result (λ o. worker_view o ≡ handle true 0 [] []) }
{
    Owner::<K>::lifo_as(alloc, DEQUE_ROOM)
}

// A deque for each worker.
#[tactic(auto, using(crate::proofs::StateLists::each_owner_snoc))]
fn make_deques<K: VisitedJobs>(alloc: Global, workers: usize) -> Result<Deques<K>, OutOfMemory>
    ensures owners { IfOk result (λ d. EachOwner (Fresh 0) d.stealers.items d.owners.items) }
    ensures count { IfOk result (λ d. vec_len d.owners ≡ workers) }
{
    let mut stealers = Vec::new(alloc);
    let mut owners = Vec::new(alloc);
    for _i in 0..workers {
        let owner = make_owner::<K>(alloc)?;
        stealers.push(owner.stealer()?)?;
        owners.push(owner)?;
    }
    Ok(Deques { stealers, owners })
}

// For each worker a row: a pass on each deque.
fn make_rows<K: VisitedJobs>(
    alloc: Global,
    stealers: &Vec<JobStealer<K>>,
    owners: &mut Vec<Owner<K>>,
    workers: usize,
) -> Result<Vec<Vec<Pass<HeapJob, HandleView>>>, OutOfMemory>
    requires { EachOwner (Fresh 0) stealers.now.items owners.old.items }
    ensures len { length owners.new.items ≡ length owners.old.items }
    ensures owners { OnOk result (EachOwner (Fresh workers) stealers.now.items owners.new.items) }
    ensures count { IfOk result (λ v. vec_len v ≡ workers) }
    ensures rows { IfOk result (λ v. All (λ r. NewRow stealers.now.items r.items) v.items) }
{
    let mut rows = Vec::new(alloc);
    for i in 0..workers {
        let row = lend_each(alloc, stealers, owners, i)?;
        rows.push(row)?;
    }
    Ok(rows)
}

// A worker that has nothing yet.
fn make_state<K: VisitedJobs + BoxWeight<I>, I>(
    alloc: Global,
    stealers: &Vec<JobStealer<K>>,
    owner: Owner<K>,
    passes: Vec<Pass<HeapJob, HandleView>>,
    workers: usize,
) -> Result<WorkerState<K, I>, OutOfMemory>
    requires owner { Fresh workers (worker_view owner) }
    requires passes { NewRow stealers.now.items passes.items }
    ensures deque { IfOk result (λ s. worker_deque s.owner ≡ worker_deque owner) }
    ensures owner { IfOk result (λ s. Fresh workers (worker_view s.owner)) }
    ensures state { IfOk result (IsNew K.is_visited K.answers K.weight stealers.now.items) }
{
    Ok(WorkerState {
        owner,
        passes,
        hand: Vec::with_capacity(alloc, HAND_ROOM)?,
        output: Output {
            journal: Vec::new(alloc),
            parts: Vec::new(alloc),
        },
        done: false,
    })
}

// Removes the first owner of the list.
fn first_owner<K: VisitedJobs>(owners: &mut Vec<Owner<K>>) -> Option<Owner<K>>
    ensures first { MatchOption result (owners.old.items ≡ []) (λ p. owners.old.items ≡ p ∷ owners.new.items) }
    ensures len { MatchOption result (owners.new.items ≡ []) (λ _. vec_len owners.old ≡ vec_len owners.new + 1) }
{
    if owners.is_empty() {
        return None;
    }
    Some(owners.remove(0))
}

// Removes the first state of the list.
fn first_state<K: VisitedJobs, I>(states: &mut Vec<WorkerState<K, I>>) -> Option<WorkerState<K, I>>
    ensures first { MatchOption result (states.old.items ≡ []) (λ p. states.old.items ≡ p ∷ states.new.items) }
    ensures len { MatchOption result (states.new.items ≡ []) (λ _. vec_len states.old ≡ vec_len states.new + 1) }
{
    if states.is_empty() {
        return None;
    }
    Some(states.remove(0))
}

// A state for each owner.
#[tactic(auto, using(crate::proofs::StateLists::making_at, crate::proofs::StateLists::making_next, crate::proofs::StateLists::making_end))]
fn make_states<K: VisitedJobs + BoxWeight<I>, I: Drop>(
    alloc: Global,
    stealers: &Vec<JobStealer<K>>,
    mut owners: Vec<Owner<K>>,
    mut rows: Vec<Vec<Pass<HeapJob, HandleView>>>,
    workers: usize,
) -> Result<Vec<WorkerState<K, I>>, OutOfMemory>
    requires owners { EachOwner (Fresh workers) stealers.now.items owners.items }
    requires rows { All (λ r. NewRow stealers.now.items r.items) rows.items }
    requires len { vec_len rows ≡ vec_len owners }
    ensures len { IfOk result (λ v. vec_len v ≡ vec_len owners) }
    ensures deques { IfOk result (λ v. EachState (Fresh workers) stealers.now.items v.items) }
    ensures states { IfOk result (λ v. All (IsNew K.is_visited K.answers K.weight stealers.now.items) v.items) }
{
    let mut states = Vec::new(alloc);
    while let Some(owner) = first_owner(&mut owners) {
        let Some(row) = rows.pop() else {
            unreachable!();
        };
        let state = make_state(alloc, stealers, owner, row, workers)?;
        states.push(state)?;
    }
    Ok(states)
}

// Takes all states apart, in order. Their hands are dropped: they are empty (`MayLeave`).
fn take_apart<K: VisitedJobs + BoxWeight<I>, I: Drop>(
    alloc: Global,
    stealers: &Vec<JobStealer<K>>,
    mut states: Vec<WorkerState<K, I>>,
    workers: usize,
) -> Result<WorkerOutputs<K, I>, OutOfMemory>
    requires deques { EachState (Lent workers) stealers.now.items states.items }
    requires states { All (MayLeave K.is_visited K.answers stealers.now.items) states.items }
    ensures owners { IfOk result (λ l. EachOwner (Lent workers) stealers.now.items l.owners.items) }
    ensures count { IfOk result (λ l. vec_len l.rows ≡ vec_len states) }
    ensures rows { IfOk result (λ l. EachRow stealers.now.items l.rows.items) }
    ensures parts { IfOk result (λ l. All (IsPart K.is_visited K.answers) l.parts.items) }
    ensures sums { IfOk result (HandsOver K.weight states.items) }
{
    let mut owners = Vec::new(alloc);
    let mut rows = Vec::new(alloc);
    let mut journals = Vec::new(alloc);
    let mut parts = Vec::new(alloc);
    while let Some(state) = first_state(&mut states) {
        let WorkerState {
            owner,
            passes,
            hand: _,
            output,
            done: _,
        } = state;
        let Output {
            journal,
            parts: mut more,
        } = output;
        owners.push(owner)?;
        rows.push(passes)?;
        journals.push(journal)?;
        parts.append(&mut more)?;
    }
    Ok(WorkerOutputs {
        owners,
        rows,
        journals,
        parts,
    })
}

// Takes back all passes.
#[tactic(auto, using(crate::proofs::DequeSteps::weigh_append))]
fn absorb_all<K: VisitedJobs>(
    stealers: &Vec<JobStealer<K>>,
    owners: &mut Vec<Owner<K>>,
    mut rows: Vec<Vec<Pass<HeapJob, HandleView>>>,
)
    requires owners { EachOwner (Lent (vec_len rows)) stealers.now.items owners.old.items }
    requires rows { EachRow stealers.now.items rows.items }
    ensures owners { EachOwner (Lent 0) stealers.now.items owners.new.items }
    ensures pushed { (h : Job → ℕ) → all_pushed h owners.new.items ≡ all_pushed h owners.old.items }
    ensures taken { (h : Job → ℕ) →
        owners_taken h owners.new.items ≡ owners_taken h owners.old.items + rows_taken h rows.items }
{
    while let Some(row) = rows.pop() {
        absorb_each(stealers, owners, row, rows.len());
    }
}

// Runs what is left in all deques to its end, the last deque first.
#[tactic(auto, using(crate::proofs::StateLists::last_is_back))]
fn drain_all<
    R: Wait,
    K: VisitedJobs + BoxWeight<I>,
    I: Drop,
    F: Fn(&Job) -> Result<Outcome<I>, OutOfMemory>,
    G: Gate,
>(
    rt: &R,
    alloc: Global,
    call: &F,
    gate: &G,
    mut owners: Vec<Owner<K>>,
    output: &mut Output<I>,
) -> Result<(), OutOfMemory>
    requires call { RunsVisited K.is_visited K.answers K.weight F.pre F.post call.now }
    requires owners { AllBack owners.items }
    requires parts { All (IsPart K.is_visited K.answers) output.old.parts.items }
    ensures parts { OnOk result (All (IsPart K.is_visited K.answers) output.new.parts.items) }
    ensures stays { OnOk result (KeepsHalves output.old output.new) }
    ensures sums { OnOk result (AddsAllDrained K.weight owners.items output.old output.new) }
{
    while let Some(owner) = owners.pop() {
        drain(rt, alloc, call, gate, owner, output)?;
    }
    Ok(())
}

// Gives the root to the last state, that of worker 0. It runs on the calling thread, even if no
// thread can be started (README.md, "How a worker works").
fn give_root<K: VisitedJobs + BoxWeight<I>, I: Drop>(
    stealers: &Vec<JobStealer<K>>,
    mut states: Vec<WorkerState<K, I>>,
    root: HeapJob,
    workers: usize,
) -> Result<Vec<WorkerState<K, I>>, OutOfMemory>
    requires root { K.is_visited root }
    requires deques { EachState (Fresh workers) stealers.now.items states.items }
    requires states { All (IsNew K.is_visited K.answers K.weight stealers.now.items) states.items }
    requires len { 0 < vec_len states }
    ensures root { IfOk result (λ v. LastHolds root.cell.path v.items) }
    ensures deques { IfOk result (λ v. EachState (Fresh workers) stealers.now.items v.items) }
    ensures ready { IfOk result (λ v. All (IsReady K.is_visited K.answers stealers.now.items) v.items) }
    ensures len { IfOk result (λ v. vec_len v ≡ vec_len states) }
    ensures sums { IfOk result (λ v. HoldRoot K.weight root v.items) }
{
    let Some(mut last) = states.pop() else {
        unreachable!();
    };
    last.hand.push(root)?;
    states.push(last)?;
    Ok(states)
}

// The run of all workers, and of the caller after them.
#[tactic(auto, using(crate::proofs::StateLists::all_back, crate::proofs::StateLists::finished_states, crate::proofs::StateLists::finished_all, crate::proofs::StateLists::finished_length))]
fn run_states<
    R: Threads + Wait + Sync,
    K: VisitedJobs + BoxWeight<I> + Send + Sync,
    I: Drop + Send,
    F: Fn(&Job) -> Result<Outcome<I>, OutOfMemory> + Sync,
    G: Gate + Sync,
>(
    rt: &R,
    alloc: Global,
    call: &F,
    gate: &G,
    stealers: &Vec<JobStealer<K>>,
    mut states: Vec<WorkerState<K, I>>,
) -> Result<Harvest<I>, OutOfMemory>
    requires call { RunsVisited K.is_visited K.answers K.weight F.pre F.post call.now }
    requires len { 0 < vec_len states }
    requires deques { EachState (Fresh (vec_len states)) stealers.now.items states.items }
    requires ready { All (IsReady K.is_visited K.answers stealers.now.items) states.items }
    ensures parts { IfOk result (λ v. All (IsPart K.is_visited K.answers) v.parts) }
    ensures journals { IfOk result (λ v. WorkerJournals states.items v.journals v.left) }
    ensures sums { IfOk result (λ v. Conserves K.weight states.items v.journals v.parts) }
{
    let workers = states.len();
    run_workers(rt, alloc, call, gate, stealers, &mut states)?;
    let outputs = take_apart(alloc, stealers, states, workers)?;
    let WorkerOutputs {
        mut owners,
        rows,
        mut journals,
        parts,
    } = outputs;
    absorb_all(stealers, &mut owners, rows);
    let journal = Vec::new(alloc);
    let mut rest = Output { journal, parts };
    drain_all(rt, alloc, call, gate, owners, &mut rest)?;
    let Output { journal, parts } = rest;
    // Worker 0, who was given the root, has the last state. Its journal must be the first.
    journals.reverse();
    let left = journal.len() as u64;
    journals.push(journal)?;
    Ok(Harvest {
        parts: PartList::of(parts),
        journals: Journals::of(journals),
        left,
    })
}

/// Runs the root and all boxes below it with this number of workers, at least 1. Returns the parts
/// and the journals. The only error is out-of-memory.
// No code reads the work. It is an argument because what the names of `K` mean at a call is chosen
// by the call's arguments (names.rt).
pub fn run_named<
    R: Threads + Wait + Sync,
    K: VisitedJobs + BoxWeight<I> + Send + Sync,
    W,
    I: Drop + Send,
    F: Fn(&Job) -> Result<Outcome<I>, OutOfMemory> + Sync,
    G: Gate + Sync,
>(
    rt: &R,
    alloc: Global,
    workers: u32,
    root: Job,
    _work: &W,
    call: &F,
    gate: &G,
) -> Result<Harvest<I>, OutOfMemory>
    requires call { RunsVisited K.is_visited K.answers K.weight F.pre F.post call.now }
    requires root { K.is_visited root }
    requires workers { 1 ≤ workers }
    ensures parts { IfOk result (λ v. All (IsPart K.is_visited K.answers) v.parts) }
    ensures journals { IfOk result (λ v. RunJournals root.cell.path workers v.journals v.left) }
    ensures sums { IfOk result (λ v. HoldsTree K.weight root v.journals v.parts) }
{
    let count = workers as usize;
    let heap_job = HeapJob::new(alloc, root)?;
    let deques = make_deques::<K>(alloc, count)?;
    let Deques {
        stealers,
        mut owners,
    } = deques;
    let rows = make_rows(alloc, &stealers, &mut owners, count)?;
    let fresh = make_states(alloc, &stealers, owners, rows, count)?;
    let states = give_root(&stealers, fresh, heap_job, count)?;
    let harvest = run_states(rt, alloc, call, gate, &stealers, states)?;
    Ok(harvest)
}
