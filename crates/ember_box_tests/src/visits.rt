// The job of the root, what is known of it, and the jobs of its halves.
ghost use Rattle.std.specs.Prelude.{◌<◌, ◌≤◌, length};
ghost use Rattle.ember_visit.specs.Jobs.{IsJob};

use crate::scenes::{expression, scene_of_files};
use crate::texts::{APART, TETRA};
use ember_expr::Expr;
use ember_gen::scene_of;
use ember_job::Job;
use ember_model::{Axis, OutOfMemory, Scene, Tri};
use ember_visit::{box_value, halve_job, halve_unless_leaf_among, listed_tris, root_job};
use ember_width::Narrow;
use std::alloc::Global;
use std::test::Fail;

// Whether the root has these triangles.
fn has_at_root(alloc: Global, s: &Scene, list: &[u32]) -> Result<bool, OutOfMemory> {
    let root = root_job(alloc, s)?;
    Ok(root.list.items() == list)
}

// How many it has.
fn count_at_root(alloc: Global, s: &Scene) -> Result<usize, OutOfMemory> {
    let root = root_job(alloc, s)?;
    Ok(root.list.items().len())
}

#[test]
fn all_triangles_are_near_the_root(rt: HostRuntime) -> Result<(), Fail> {
    let alloc = rt.alloc();
    let scene = scene_of_files(alloc, &[TETRA])?;
    assert!(rt; has_at_root(alloc, &scene, &[0, 1, 2, 3])?);
    let scene = scene_of(alloc, 1)?;
    assert!(rt; count_at_root(alloc, &scene)? == 12);
    Ok(())
}

// What is known of an expression in the box of a job.
fn value_in(s: &Scene, e: &Expr, job: &Job) -> Option<bool>
    requires { IsJob s.now.tris job.now }
{
    box_value(e, s, job)
}

static WHAT_IS_KNOWN_OF_THE_ROOT_OF_ONE_BOX: [(&str, Option<bool>); 2] = [
    ("m1", None),
    ("m2", Some(false)),
];

#[test]
fn what_is_known_of_the_root_of_one_box(rt: HostRuntime) -> Result<(), Fail> {
    let alloc = rt.alloc();
    let scene = scene_of(alloc, 1)?;
    let root = root_job(alloc, &scene)?;
    for &(text, want) in &WHAT_IS_KNOWN_OF_THE_ROOT_OF_ONE_BOX {
        let e = expression(alloc, text.as_bytes(), 2)?;
        assert!(rt; value_in(&scene, &e, &root) == want);
    }
    Ok(())
}

// The jobs of the halves along y.
fn halves_of(alloc: Global, s: &Scene, job: &Job) -> Result<(Job, Job), OutOfMemory>
    requires job { IsJob s.now.tris job.now }
    requires side { 0 < job.now.cell.log Axis.Y }
{
    halve_job(alloc, s, job, Axis::Y)
}

// The triangles of a job.
fn listed(alloc: Global, s: &Scene, job: &Job) -> Result<Vec<Tri>, OutOfMemory>
    requires { IsJob s.now.tris job.now }
{
    listed_tris(alloc, s.tris.items(), job.list.items())
}

// These are the halves of the root, with these triangles, and what is carried to them is what is carried to it.
fn are_halves(root: &Job, low: &Job, high: &Job, lists: [&[u32]; 2]) -> bool {
    (low.cell.path(), high.cell.path()) == (2, 3)
        && low.list.items() == lists[0]
        && high.list.items() == lists[1]
        && low.at == root.at
        && high.at == root.at
}

#[test]
fn the_halves_of_the_root_part_its_triangles(rt: HostRuntime) -> Result<(), Fail> {
    let alloc = rt.alloc();
    let scene = scene_of_files(alloc, &[APART])?;
    let root = root_job(alloc, &scene)?;
    assert!(rt; listed(alloc, &scene, &root)?.as_slice() == scene.tris.items());
    assert!(rt; root.cell.log(Axis::Y) > 0);
    let (low, high) = halves_of(alloc, &scene, &root)?;
    assert!(rt; are_halves(&root, &low, &high, [&[2, 3], &[0, 1]]));
    Ok(())
}

// The jobs of the halves, unless the box is a leaf.
fn halves_unless_leaf(
    alloc: Global,
    s: &Scene,
    job: &Job,
) -> Result<Option<(Job, Job)>, OutOfMemory>
    requires { IsJob s.now.tris job.now }
{
    halve_unless_leaf_among::<Narrow>(alloc, s.tris.items(), job)
}

// Whether the root over these files is a leaf.
fn is_root_a_leaf(alloc: Global, files: &[&[u8]]) -> Result<bool, Fail>
    requires { length files.now ≤ 64 }
{
    let scene = scene_of_files(alloc, files)?;
    let root = root_job(alloc, &scene)?;
    Ok(halves_unless_leaf(alloc, &scene, &root)?.is_none())
}

#[test]
fn a_box_that_is_no_leaf_has_halves(rt: HostRuntime) -> Result<(), Fail> {
    assert!(rt; is_root_a_leaf(rt.alloc(), &[TETRA])?);
    let scene = scene_of_files(rt.alloc(), &[APART, APART, APART, APART, APART])?;
    let root = root_job(rt.alloc(), &scene)?;
    let Some((low, high)) = halves_unless_leaf(rt.alloc(), &scene, &root)? else {
        return Err(Fail::from("a leaf"));
    };
    let lower = [2, 3, 6, 7, 10, 11, 14, 15, 18, 19];
    let upper = [0, 1, 4, 5, 8, 9, 12, 13, 16, 17];
    assert!(rt; are_halves(&root, &low, &high, [&lower, &upper]));
    Ok(())
}
