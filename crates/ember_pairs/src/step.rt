// The work of one box.
ghost use Rattle.std.specs.Prelude.{◌≡◌, ◌<◌, length, All, IfOk};
ghost use Rattle.std.specs.List.{range_with_len};
ghost use Rattle.ember_box.specs.Boxes.{root};
ghost use Rattle.ember_job.specs.Works.{Answers};
ghost use Rattle.ember_pairs.specs.Pairs.{AreMeetingPairs};
ghost use Rattle.ember_pairs.specs.Works.{no_windings, job_at, IsPairsJob, pairs_shape};

use crate::meetings::meeting_pairs;
use crate::pair::PairList;
use ember_box::{Cell, HalvedBox, halve_box, halves, near_list, root};
use ember_job::{Job, Numbers, OneItem, Outcome, Work};
use ember_model::{OutOfMemory, Scene, Vector};
use std::alloc::Global;

/// The work that looks for the pairs of triangles of a scene that meet. Its item for a leaf is the
/// list of the leaf's pairs.
#[derive(Drop)]
pub struct PairWork<'a> {
    pub scene: &'a Scene,
}

impl<'a> Work for PairWork<'a> {
    ghost use Rattle.std.specs.Prelude.{◌≡◌};
    ghost use Rattle.ember_pairs.specs.Pairs.{AreMeetingPairs};
    ghost use Rattle.ember_pairs.specs.Works.{IsPairsJob, pairs_shape};
    ghost use Rattle.ember_pairs.specs.Laws.{halves_are_valid, halves_are_split};

    type Item = PairList;

    ghost valid = { λ w job. IsPairsJob w.scene.now.tris job };

    ghost shape = { λ w job. pairs_shape w.scene.now.tris job };

    ghost item = { λ w job ps. AreMeetingPairs w.scene.now.tris job.list ps };

    ghost halves_valid = { λ w job low high v e. halves_are_valid w.scene.now.tris job low high v e };

    ghost halves_split = { λ w job low high v e. halves_are_split w.scene.now.tris job low high v e };
}

impl<'a> OneItem for PairWork<'a> {
    ghost use Rattle.ember_pairs.specs.Laws.{one_list};

    ghost one_item = { λ w job one other x y. one_list w.scene.now.tris job.list one other x y };
}

// The numbers from 0 up to `count`, which isn't among them.
fn numbers_below(alloc: Global, count: u32) -> Result<Vec<u32>, OutOfMemory>
    ensures { IfOk result (λ numbers. numbers.items ≡ range_with_len 0 count) }
{
    let mut numbers = Vec::with_capacity(alloc, count as usize)?;
    for i in 0..count {
        numbers.push(i)?;
    }
    Ok(numbers)
}

// The job of the root box.
fn root_job(alloc: Global, s: &Scene) -> Result<Job, OutOfMemory>
    ensures { IfOk result (λ job. job ≡ job_at s.now.tris root) }
{
    let root = root();
    let all = numbers_below(alloc, s.tris.items().len() as u32)?;
    let near = near_list(alloc, s, &all, &root)?;
    Ok(job_of(root, near))
}

/// The job of the root box, with the triangles near it. The only error is out-of-memory.
#[tactic(auto, using(crate::proofs::Steps::root_is_valid))]
pub fn root_pairs(alloc: Global, s: &Scene) -> Result<Job, OutOfMemory>
    ensures value { IfOk result (λ job. job ≡ job_at s.now.tris root) }
    ensures valid { IfOk result (λ job. IsPairsJob s.now.tris job) }
{
    root_job(alloc, s)
}

// The job of a box with the indices of the triangles near it.
fn job_of(cell: Cell, near: Vec<u32>) -> Job
    ensures { result ≡ record { cell = cell; list = near.items; at = no_windings } }
{
    Job {
        cell,
        list: Numbers::of(near),
        at: Vector { counts: [0; 64] },
    }
}

/// What becomes of a job: it is skipped if its list has fewer than two triangles. Otherwise it is a
/// leaf with the pairs of its list that meet, if its box is a leaf, or it becomes the halves of the
/// box along the halving axis, each with the triangles near it. The only error is out-of-memory.
pub fn pair_step(alloc: Global, s: &Scene, job: &Job) -> Result<Outcome<PairList>, OutOfMemory>
    requires { IsPairsJob s.now.tris job.now }
    ensures { IfOk result (λ o.
        Answers (λ j. pairs_shape s.now.tris j) (λ j ps. AreMeetingPairs s.now.tris j.list ps) job.now o) }
{
    let list = job.list.items();
    if list.len() < 2 {
        return Ok(Outcome::Skipped);
    }
    match halve_box(alloc, s, list, &job.cell)? {
        None => Ok(Outcome::Leaf(meeting_pairs(alloc, s.tris.items(), list)?)),
        Some(
            HalvedBox {
                axis,
                left: near_left,
                right: near_right,
            },
        ) => {
            let (left, right) = halves(&job.cell, axis);
            Ok(Outcome::Halves(job_of(left, near_left), job_of(right, near_right)))
        }
    }
}
