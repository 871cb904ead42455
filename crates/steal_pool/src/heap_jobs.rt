// Jobs on the heap.
ghost use Rattle.std.specs.Prelude.{◌≡◌, IfOk};

use ember_job::Job;
use ember_model::OutOfMemory;
use std::alloc::Global;
use std::marker::Model;

/// A job on the heap (in a `Box`), so that hands, deques and steals move one word. Contracts see
/// the job.
#[derive(Drop)]
pub struct HeapJob {
    job: Box<Job>,
}

impl Model for HeapJob {
    ghost use Rattle.ember_job.specs.declared.job.Job.{Job};
    ghost use Rattle.steal_pool.specs.Codes.{job_code};

    ghost Value = { Job };

    ghost coded = { job_code };

    ghost view = { λ s. s.job.value };
}

impl HeapJob {
    /// Moves the job to the heap. The only error is out-of-memory.
    pub fn new(alloc: Global, job: Job) -> Result<HeapJob, OutOfMemory>
        ensures { IfOk result (λ heap_job. heap_job ≡ job) }
    {
        Ok(HeapJob {
            job: Box::new(alloc, job)?,
        })
    }

    /// The job, borrowed.
    pub fn job(&self) -> &Job
        ensures { result.now ≡ self.now }
    {
        &self.job
    }
}

/// The jobs of the two halves of a box, which are still to be run.
#[derive(Drop)]
pub struct HalfJobs {
    pub left: HeapJob,
    pub right: HeapJob,
}
