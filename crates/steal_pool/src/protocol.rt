// The protocol of a deque: what holds of all its handles together. See README.md, "Why nothing is
// lost".
//
// Contracts of this crate use words of crossbeam_deque: `worker_view` and `view` give the
// `HandleView` of the owner's end and of a pass, `worker_deque` and `stealer_deque` say which deque
// an end is of, and `IsPassOf d p` says that p is a pass on the deque d. The trait `Outcome` is that
// of crossbeam_deque, not the enum of ember_job.
//
// The traits implemented below are those of crossbeam_deque too (src/protocol.rt there; `Split` and
// `Join` come from atomic_table, which it uses). All their members are ghost, and say:
//
// - `Protocol`, for a deque. `holds items views` is the invariant: `items` has the jobs in the
//   deque, front first, and `views` the views of all its handles by their ports. `first` is the view
//   of a new deque's owner. `guest` is that of a pass which a stealer makes itself; nobody does that
//   here, since the owner makes all passes.
// - `Outcome`, for a push, a pop or a steal. `then v xs w` holds after a call that pushed or took
//   the jobs xs, where v and w are the handle's views before and after. `empty v` is what a pop
//   proves that finds no job, where v is the view; if it isn't given, that is nothing.
// - `Split`, for making a pass. `left v` is the owner's view after it, where v is that before, and
//   `right v` is the new pass's.
// - `Join`, for taking a pass back. `both v w` is the owner's view after it, where v is that before
//   and w the pass's; `spent` is the view that the pass is left with.
//
// The calls have a type parameter that names one of these types: `push_as::<Pushed>(job)` is a push
// after which `then` of `Pushed` holds, or which hands the job back; `pop_as` and `steal_as` are
// used likewise. `another::<ForStealer>()` makes a pass, and `absorb::<ForStealer>(pass)` takes it
// back. Each call requires that the invariant survives its step, whatever the deque holds and
// whatever the views of the other handles are (`Pushes`, `Takes`, `Pops`, `Forks` and `Merges` of
// crossbeam_deque), and that `empty` follows from it where the deque is empty (`Finds`).
// proofs/DequeSteps.antt proves both for `JobsConserved`. `lifo_as` makes a deque, and requires that
// the invariant holds of no jobs and the view `first` alone.
ghost use Rattle.std.specs.Prelude.{◌≡◌, All};
ghost use Rattle.ember_job.specs.declared.job.Job.{Job};
ghost use Rattle.steal_pool.specs.Protocol.{JobsConserved, TookAllPushed, handle, new_pass, with_pushed, with_taken, with_one_lent, with_returned};

use crate::heap_jobs::HeapJob;
use crate::names::VisitedJobs;
use crossbeam_deque::protocol::{Join, Outcome, Protocol, Split};
use crossbeam_deque::{Stealer, Worker};
use ember_job::Job;
use std::alloc::Global;
use std::collections::LinkedList;
use std::marker::PhantomData;

/// What contracts know of a handle of a deque. No value of it exists at run time.
pub struct HandleView {
    /// Whether it is the owner's.
    pub owns: bool,
    /// The owner's: how many passes are out. Another's: 1, and 0 once it came back.
    pub lent: u64,
    /// The jobs that it has pushed.
    pub pushed: LinkedList<Job>,
    /// The jobs that it has popped or stolen.
    pub taken: LinkedList<Job>,
}

/// The protocol of one deque: it has jobs of visited boxes, none is lost, and none is taken twice.
pub struct JobProtocol<K: VisitedJobs> {
    of: PhantomData<K>,
}

impl<K: VisitedJobs> Protocol<HeapJob, HandleView> for JobProtocol<K> {
    ghost use Rattle.std.specs.Prelude.{true, []};
    ghost use Rattle.steal_pool.specs.Protocol.{JobsConserved, handle, new_pass};

    ghost holds = { JobsConserved K.is_visited };

    ghost first = { handle true 0 [] [] };

    ghost guest = { new_pass };
}

/// How the owner makes a pass for a stealer (`Split`), and takes it back (`Join`).
pub struct ForStealer;

impl Split<HandleView> for ForStealer {
    ghost use Rattle.steal_pool.specs.Protocol.{with_one_lent, new_pass};

    ghost left = { λ v. with_one_lent v };

    ghost right = { λ _. new_pass };
}

impl Join<HandleView> for ForStealer {
    ghost use Rattle.std.specs.Prelude.{false, []};
    ghost use Rattle.steal_pool.specs.Protocol.{with_returned, handle};

    ghost both = { λ v w. with_returned v w };

    ghost spent = { handle false 0 [] [] };
}

/// What a push leaves.
pub struct Pushed;

impl Outcome<HeapJob, HandleView> for Pushed {
    ghost use Rattle.std.specs.Prelude.{◌≡◌};
    ghost use Rattle.steal_pool.specs.Protocol.{with_pushed};

    ghost then = { λ v xs w. w ≡ with_pushed v xs };
}

/// What a pop or a steal leaves.
pub struct Taken<K: VisitedJobs> {
    of: PhantomData<K>,
}

impl<K: VisitedJobs> Outcome<HeapJob, HandleView> for Taken<K> {
    ghost use Rattle.std.specs.Prelude.{◌≡◌, All};
    ghost use Rattle.steal_pool.specs.Protocol.{with_taken};

    ghost then = { λ v xs w. (w ≡ with_taken v xs) × All K.is_visited xs };
}

/// What the owner's pop leaves once all passes came back.
pub struct Drained<K: VisitedJobs> {
    of: PhantomData<K>,
}

impl<K: VisitedJobs> Outcome<HeapJob, HandleView> for Drained<K> {
    ghost use Rattle.std.specs.Prelude.{◌≡◌, All};
    ghost use Rattle.steal_pool.specs.Protocol.{with_taken, TookAllPushed};

    ghost then = { λ v xs w. (w ≡ with_taken v xs) × All K.is_visited xs };

    ghost empty = { TookAllPushed };
}

/// The owner's end of a deque.
pub type Owner<K> = Worker<HeapJob, Global, HandleView, JobProtocol<K>>;

/// The end of a deque from which others steal.
pub type JobStealer<K> = Stealer<HeapJob, Global, HandleView, JobProtocol<K>>;
