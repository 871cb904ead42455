// What one worker has, and what all workers hand over.
use crate::heap_jobs::HeapJob;
use crate::names::VisitedJobs;
use crate::output::Output;
use crate::protocol::{HandleView, Owner};
use crossbeam_deque::Pass;
use ember_job::Entry;
use ember_tree::Part;

/// What one worker has.
#[derive(Drop)]
pub struct WorkerState<K: VisitedJobs, I> {
    /// The owner's end of its deque.
    pub owner: Owner<K>,
    /// A pass on each deque, in the order of the deques.
    pub passes: Vec<Pass<HeapJob, HandleView>>,
    /// The boxes that it holds outside its deque. Others can't steal them.
    pub hand: Vec<HeapJob>,
    pub output: Output<I>,
    /// Whether it left with an empty hand because no box was left to run.
    pub done: bool,
}

/// What all workers hand over after their runs.
#[derive(Drop)]
pub struct WorkerOutputs<K: VisitedJobs, I> {
    pub owners: Vec<Owner<K>>,
    /// For each worker its passes.
    pub rows: Vec<Vec<Pass<HeapJob, HandleView>>>,
    pub journals: Vec<Vec<Entry>>,
    pub parts: Vec<Part<I>>,
}
