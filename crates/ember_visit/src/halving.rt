// The halves of a job. A call whose name ends in `_among` takes the triangles of a scene on any grid,
// and the one without it takes a scene.
ghost use Rattle.std.specs.Prelude.{◌≡◌, ◌<◌, ◌≤◌, length, All, IfOk};
ghost use Rattle.ember_model.specs.Limits.{most_triangles};
ghost use Rattle.ember_model.specs.Meshes.{HasMesh};
ghost use Rattle.ember_model.specs.Within.{IsTriWithin};
ghost use Rattle.ember_box.specs.Near.{listed};
ghost use Rattle.ember_law.specs.Counts.{HasRoom};
ghost use Rattle.ember_box.specs.Halved.{AreNearListsOn};
ghost use Rattle.ember_visit.specs.Jobs.{AreHalfJobs, AreHalfJobsOn, IsHalvedUnlessLeafOn};

use ember_box::{HalvedBox, halve_box_among, halves, near_halves};
use ember_job::{Job, Numbers};
use ember_model::{Axis, OutOfMemory, Scene, Tri};
use ember_ref::shift_listed_on;
use ember_width::{Narrow, Width};
use std::alloc::Global;

/// The triangles with the indices of the list, in its order. The only error is out-of-memory.
pub fn listed_tris(alloc: Global, tris: &[Tri], list: &[u32]) -> Result<Vec<Tri>, OutOfMemory>
    requires { All (λ i. i < length tris.now) list.now }
    ensures { IfOk result (λ found. found.items ≡ listed tris.now list.now) }
{
    let mut found = Vec::with_capacity(alloc, list.len())?;
    for i in list {
        found.push(tris[*i as usize])?;
    }
    Ok(found)
}

// The jobs of the halves of a job along an axis, by the indices of the triangles near each. The
// left half has the box's own reference point, so only the right half's winding numbers are
// shifted.
#[tactic(none)]
fn jobs_of<W: Width>(
    tris: &[Tri],
    job: &Job,
    axis: Axis,
    near_left: Vec<u32>,
    near_right: Vec<u32>,
) -> (Job, Job)
    requires within { All (IsTriWithin W.corner) tris.now }
    requires numbered { All (HasMesh 64) tris.now }
    requires side { 0 < job.now.cell.log axis }
    requires places { All (λ i. i < length tris.now) job.now.list }
    requires few { length job.now.list ≤ most_triangles }
    requires room { HasRoom job.now.at.counts }
    requires lists { AreNearListsOn W.scale tris.now job.now.cell axis job.now.list near_left.items near_right.items }
    ensures { AreHalfJobsOn W.scale W.fine tris.now job.now axis result.0 result.1 }
{
    let (left, right) = halves(&job.cell, axis);
    let left_job = Job {
        cell: left,
        list: Numbers::of(near_left),
        at: job.at,
    };
    let mut right_job = Job {
        cell: right,
        list: Numbers::of(near_right),
        at: job.at,
    };
    shift_listed_on::<W>(tris, job.list.items(), &job.cell, axis, &mut right_job.at);
    (left_job, right_job)
}

/// The two halves of a job along an axis, each with those of the job's triangles that are near it
/// and with the winding numbers at its own reference point. The side along the axis is above 1, the
/// list has at most 262,144 indices of the scene's triangles, and each count leaves room for a
/// crossing with each of them. The program calls this for `voxels`, which chooses the axis itself;
/// `bool` calls `halve_unless_leaf`. The only error is out-of-memory.
pub fn halve_job(alloc: Global, s: &Scene, job: &Job, axis: Axis) -> Result<(Job, Job), OutOfMemory>
    requires side { 0 < job.now.cell.log axis }
    requires places { All (λ i. i < length s.now.tris) job.now.list }
    requires few { length job.now.list ≤ most_triangles }
    requires room { HasRoom job.now.at.counts }
    ensures { IfOk result (λ r. AreHalfJobs s.now.tris job.now axis r.0 r.1) }
{
    let (near_left, near_right) = near_halves(alloc, s, job.list.items(), &job.cell, axis)?;
    Ok(jobs_of::<Narrow>(s.tris.items(), job, axis, near_left, near_right))
}

/// `None` if the box of a job is a leaf, and otherwise the two halves of the job along the halving
/// axis of its box. The triangles are within the grid, of meshes that are numbered from 1 to 64. The
/// list has at most 262,144 indices of them, and each count leaves room for a crossing with each of
/// those. The only error is out-of-memory.
pub fn halve_unless_leaf_among<W: Width>(
    alloc: Global,
    tris: &[Tri],
    job: &Job,
) -> Result<Option<(Job, Job)>, OutOfMemory>
    requires within { All (IsTriWithin W.corner) tris.now }
    requires numbered { All (HasMesh 64) tris.now }
    requires places { All (λ i. i < length tris.now) job.now.list }
    requires few { length job.now.list ≤ most_triangles }
    requires room { HasRoom job.now.at.counts }
    ensures { IfOk result (λ r. IsHalvedUnlessLeafOn W.scale W.fine tris.now job.now r) }
{
    match halve_box_among::<W>(alloc, tris, job.list.items(), &job.cell)? {
        None => Ok(None),
        Some(HalvedBox { axis, left, right }) => {
            Ok(Some(jobs_of::<W>(tris, job, axis, left, right)))
        }
    }
}
