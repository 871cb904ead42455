// Ghost names of one run: which jobs it visits, which items answer a job, and what a box weighs.
//
// The protocol of a deque is fixed by types, so it must get these names from a type. That type is
// the parameter `K` of the private functions. It has no size, and only contracts use it. Inside the
// functions `K` is any type with such names, so each is proved for all of them.
//
// `run_alone` and `run_tree` put in `Brand`, a type of the toolchain. `K` = `Brand` means: the
// proof of the caller says what the names mean in this one call, by the arguments of the call. See
// the `Invariants.antt` in proofs/tree/run_alone and proofs/tree/run_tree. They choose by the work
// and the root, so `run_alone_named` and `run_named` take the work as an argument, though no code
// reads it. The contracts of `run_alone` and `run_tree` don't have the names: in place of them they
// have `IsVisited` of ember_job and `AnswersLeaf` (`AreParts` in specs/Journals.antt). The weight
// of a box with all below it is `tree_weight` there.
//
// This is sound: `run_alone_named` and `run_named` are proved for every `K`, so also for the `K`
// whose names mean what that `Invariants.antt` says. `Brand` is the toolchain's name for this `K`
// at one call. No argument and no result of these two functions has a type that depends on `K`, so
// no value that was made under one meaning is read under another. See docs/trust/TRUST.md, "What is
// assumed".
//
// The compiler wants `Brand` to have the names, as any `K`, so it has impls below. Their meanings
// count only at a call whose proof chooses none, and there is no such call here.
ghost use Rattle.std.specs.Prelude.{ℕ, ⊤};
ghost use Rattle.ember_job.specs.declared.job.Job.{Job};
ghost use Rattle.ember_job.specs.declared.job.Entry.{Entry};

use std::marker::Brand;

/// Which jobs are those of visited boxes: in a run, those that are reached from its root.
pub trait VisitedJobs {
    ghost is_visited: { Job → Type 0 };
}

impl VisitedJobs for Brand {
    ghost is_visited = { λ _. ⊤ };
}

/// What a box weighs with all below it, by the weights of entries and of the paths of leaves; and
/// which items answer a job.
pub trait BoxWeight<I> {
    ghost weight: { (Entry → ℕ) → (ℕ → ℕ) → Job → ℕ };

    ghost answers: { Job → I → Type 0 };
}

impl<I> BoxWeight<I> for Brand {
    ghost weight = { λ _ _ _. 0 };

    ghost answers = { λ _ _. ⊤ };
}
