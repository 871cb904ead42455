// The job at which a run begins.
ghost use Rattle.std.specs.Prelude.{◌≡◌, IfOk};
ghost use Rattle.std.specs.List.{range_with_len};
ghost use Rattle.ember_model.specs.Limits.{most_meshes};
ghost use Rattle.ember_width.specs.Scenes.{IsSceneWithin};
ghost use Rattle.ember_visit.specs.Jobs as jobs;
ghost use Rattle.ember_visit.specs.Jobs.{IsJob, IsJobOn};

use ember_box::{near_list_among, root};
use ember_job::{Job, Numbers};
use ember_model::{OutOfMemory, Scene, Tri, Vector};
use ember_width::{Narrow, Width};
use std::alloc::Global;

// The numbers from 0 up to `count`, which isn't among them.
fn numbers_below(alloc: Global, count: u32) -> Result<Vec<u32>, OutOfMemory>
    ensures { IfOk result (λ numbers. numbers.items ≡ range_with_len 0 count) }
{
    let mut numbers = Vec::with_capacity(alloc, count as usize)?;
    for i in 0..count {
        numbers.push(i)?;
    }
    Ok(numbers)
}

/// The job of the root box, for the triangles of a scene on a grid: the triangles near the root, and
/// all winding numbers 0, since its reference point is outside all meshes. The only error is
/// out-of-memory.
pub fn root_job_among<W: Width>(alloc: Global, tris: &[Tri]) -> Result<Job, OutOfMemory>
    requires { IsSceneWithin W.corner tris.now most_meshes }
    ensures value { IfOk result (λ job. job ≡ jobs.root_job_on W.scale tris.now) }
    ensures valid { IfOk result (λ job. IsJobOn W.scale W.fine tris.now job) }
{
    let root = root();
    let all = numbers_below(alloc, tris.len() as u32)?;
    let list = near_list_among::<W>(alloc, tris, &all, &root)?;
    Ok(Job {
        cell: root,
        list: Numbers::of(list),
        at: Vector { counts: [0; 64] },
    })
}

/// The job of the root box: the triangles near it, and all winding numbers 0, since its reference
/// point is outside all meshes. The only error is out-of-memory.
pub fn root_job(alloc: Global, s: &Scene) -> Result<Job, OutOfMemory>
    ensures value { IfOk result (λ job. job ≡ jobs.root_job s.now.tris) }
    ensures valid { IfOk result (λ job. IsJob s.now.tris job) }
{
    root_job_among::<Narrow>(alloc, s.tris.items())
}
