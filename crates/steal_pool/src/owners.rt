// Makes passes on deques before the workers start, and takes them back after the workers are done.
ghost use Rattle.std.specs.Prelude.{◌≡◌, ◌+◌, ◌<◌, true, [], ◌∷◌, MatchOption, ℕ, IfOk, OnOk, length};
ghost use Rattle.crossbeam_deque.specs.Handles.{view, IsPassOf, worker_deque, worker_view};
ghost use Rattle.ember_job.specs.declared.job.Job.{Job};
ghost use Rattle.steal_pool.specs.Protocol.{with_returned};
ghost use Rattle.steal_pool.specs.Steps.{EachPass, all_taken};
ghost use Rattle.steal_pool.specs.Owners.{EachOwner, Fresh, Lent, Lends, NewRow, all_pushed, owners_taken};

use crate::heap_jobs::HeapJob;
use crate::names::VisitedJobs;
use crate::protocol::{ForStealer, HandleView, JobStealer, Owner};
use crossbeam_deque::Pass;
use ember_model::OutOfMemory;
use std::alloc::Global;

// Makes a pass on a deque.
fn lend<K: VisitedJobs>(owner: &mut Owner<K>) -> Pass<HeapJob, HandleView>
    requires { (worker_view owner.old).owns ≡ true }
    ensures { Lends owner.old owner.new result }
{
    owner.another::<ForStealer>()
}

// Takes a pass back: what it has taken now counts as taken by the owner.
fn absorb<K: VisitedJobs>(owner: &mut Owner<K>, pass: Pass<HeapJob, HandleView>)
    requires owns { (worker_view owner.old).owns ≡ true }
    requires pass { IsPassOf (worker_deque owner.old) pass }
    ensures deque { worker_deque owner.new ≡ worker_deque owner.old }
    ensures view { worker_view owner.new ≡ with_returned (worker_view owner.old) (view pass) }
{
    owner.absorb::<ForStealer>(pass);
}

/// Makes a pass on each deque, and returns them in the order of the deques. Before the call, `lent`
/// passes are out on each deque. The only error is out-of-memory.
pub fn lend_each<K: VisitedJobs>(
    alloc: Global,
    stealers: &Vec<JobStealer<K>>,
    owners: &mut Vec<Owner<K>>,
    lent: usize,
) -> Result<Vec<Pass<HeapJob, HandleView>>, OutOfMemory>
    requires { EachOwner (Fresh lent) stealers.now.items owners.old.items }
    ensures len { length owners.new.items ≡ length owners.old.items }
    ensures owners { OnOk result (EachOwner (Fresh (lent + 1)) stealers.now.items owners.new.items) }
    ensures passes { IfOk result (λ v. NewRow stealers.now.items v.items) }
{
    let mut passes = Vec::new(alloc);
    for i in 0..owners.len() {
        let owner = &mut owners[i];
        let pass = lend(owner);
        passes.push(pass)?;
    }
    Ok(passes)
}

// Removes the first pass of the list.
fn first_pass(passes: &mut Vec<Pass<HeapJob, HandleView>>) -> Option<Pass<HeapJob, HandleView>>
    ensures { MatchOption result (passes.old.items ≡ []) (λ p. passes.old.items ≡ p ∷ passes.new.items) }
{
    if passes.is_empty() {
        return None;
    }
    Some(passes.remove(0))
}

/// Takes back a worker's passes, one on each deque. Before the call, `lent + 1` passes are out on
/// each deque.
pub fn absorb_each<K: VisitedJobs>(
    stealers: &Vec<JobStealer<K>>,
    owners: &mut Vec<Owner<K>>,
    mut passes: Vec<Pass<HeapJob, HandleView>>,
    lent: usize,
)
    requires owners { EachOwner (Lent (lent + 1)) stealers.now.items owners.old.items }
    requires passes { EachPass stealers.now.items passes.items }
    ensures owners { EachOwner (Lent lent) stealers.now.items owners.new.items }
    ensures pushed { (h : Job → ℕ) → all_pushed h owners.new.items ≡ all_pushed h owners.old.items }
    ensures taken { (h : Job → ℕ) →
        owners_taken h owners.new.items ≡ owners_taken h owners.old.items + all_taken h passes.items }
{
    for i in 0..owners.len() {
        let Some(pass) = first_pass(&mut passes) else {
            unreachable!();
        };
        let owner = &mut owners[i];
        absorb(owner, pass);
    }
}
