// Works, and steps: closures kept with the work whose jobs they answer.
ghost use Rattle.std.specs.Prelude.{◌≡◌, ℕ, IfOk};
ghost use Rattle.ember_job.specs.declared.job.Job.{Job};
ghost use Rattle.ember_job.specs.Works.{Shape, halved, IsSplit, Answers, AnswersAll};

use crate::{Job, Outcome};
use ember_model::OutOfMemory;

/// What a run does at its boxes. An outcome answers a job if it has the job's shape and, for a
/// leaf, an item that answers the job.
pub trait Work {
    /// What a leaf gives.
    type Item;

    /// Which jobs are valid.
    ghost valid: { Self → Job → Type 0 };

    /// The shape of a job: its two halves, a leaf, or skipped.
    ghost shape: { Self → Job → Shape };

    /// Which items answer a job that is a leaf.
    ghost item: { Self → Job → Self.Item → Type 0 };

    /// The two halves that answer a valid job are valid.
    ghost halves_valid: { (work : Self) (job low high : Job) → valid work job →
        shape work job ≡ halved low high → valid work low × valid work high };

    /// They are the two halves of its box along one axis.
    ghost halves_split: { (work : Self) (job low high : Job) → valid work job →
        shape work job ≡ halved low high → IsSplit job.cell low.cell high.cell };
}

/// A work whose jobs have one answer each.
pub trait OneItem: Work {
    /// Two items that answer one job are equal.
    ghost one_item: { (work : Self) (job : Job) (one other : Self.Item) → Self.item work job one →
        Self.item work job other → one ≡ other };
}

/// A step: a closure, kept with the work whose jobs it answers.
#[derive(Drop)]
pub struct Step<W: Work, F: Fn(&Job) -> Result<Outcome<W::Item>, OutOfMemory>> {
    pub work: W,
    pub call: F,
}

impl<W: Work, F: Fn(&Job) -> Result<Outcome<W::Item>, OutOfMemory>> Step<W, F> {
    /// The step that calls `call`. `call` may be called at every valid job, and each Ok of it
    /// answers that job. Only tests call this; the program writes the fields.
    pub fn new(work: W, call: F) -> Step<W, F>
        requires { AnswersAll W.valid W.shape W.item F.pre F.post work call }
        ensures kept { (result.work ≡ work) × (result.call ≡ call) }
        ensures step { AnswersAll W.valid W.shape W.item F.pre F.post result.work result.call }
    {
        Step { work, call }
    }

    /// Answers a valid job. Only tests call this; the pool calls `call` itself. The only error is
    /// out-of-memory.
    pub fn go(&self, job: &Job) -> Result<Outcome<W::Item>, OutOfMemory>
        requires step { AnswersAll W.valid W.shape W.item F.pre F.post self.now.work self.now.call }
        requires valid { W.valid self.now.work job.now }
        ensures called { F.post self.now.call job.entry result }
        ensures answers { IfOk result (λ o. Answers (W.shape self.now.work) (W.item self.now.work) job.now o) }
    {
        (self.call)(job)
    }
}
