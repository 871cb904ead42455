// The root and its halves; triangles near boxes, and where halving ends.
ghost use Rattle.std.specs.Prelude.{◌<◌, ◌≤◌, length};
ghost use Rattle.ember_visit.specs.Jobs.{IsJob};

use crate::scenes::scene_of_files;
use crate::texts::{APART, C, D, STAR, TETRA, TOUCHING};
use ember_box::{
    Cell, HalvedBox, halve_box, halves, halving, is_leaf, near, near_halves, near_list, root,
    split_axis,
};
use ember_job::Job;
use ember_model::{Axis, OutOfMemory, Scene};
use ember_visit::root_job;
use std::alloc::Global;
use std::process::Abort;
use std::test::Fail;

static AXES: [Axis; 3] = [Axis::X, Axis::Y, Axis::Z];

fn check_root_halves(rt: &impl Abort, k: Axis) {
    let (low, high) = halves(&root(), k);
    assert!(rt; (low.path(), high.path()) == (2, 3));
    assert!(rt; (low.low(k), high.low(k)) == (-2048, 0));
    for &other in &AXES {
        let want = if other == k { 11 } else { 12 };
        assert!(rt; (low.log(other), high.log(other)) == (want, want));
    }
}

#[test]
fn the_root_is_halved_along_each_axis(rt: HostRuntime) {
    let whole = root();
    assert!(rt; (whole.path(), whole.lo()) == (1, [-2048, -2048, -2048]));
    for &k in &AXES {
        assert!(rt; (whole.log(k), whole.side(k)) == (12, 4096));
        check_root_halves(&rt, k);
    }
}

// The upper half of the root along an axis has these fields.
fn check_upper_half(rt: &impl Abort, k: Axis, lo: [i32; 3], log: [u8; 3]) {
    let (_, upper) = halves(&root(), k);
    assert!(rt; upper.lo == lo);
    assert!(rt; upper.log == log);
    assert!(rt; upper.path == 3);
}

#[test]
fn a_box_shows_its_fields(rt: HostRuntime) {
    check_upper_half(&rt, Axis::X, [0, -2048, -2048], [11, 12, 12]);
    check_upper_half(&rt, Axis::Y, [-2048, 0, -2048], [12, 11, 12]);
    check_upper_half(&rt, Axis::Z, [-2048, -2048, 0], [12, 12, 11]);
}

// The box of side 1 with the least corner 0.
fn unit_box() -> Cell {
    let mut c = root();
    for &k in &AXES {
        for _ in 0..12 {
            if c.log(k) > 0 {
                let (low, high) = halves(&c, k);
                c = if high.low(k) <= 0 { high } else { low };
            }
        }
    }
    c
}

// A triangle whose plane touches that box and its reverse, two whose plane doesn't, and a flat one.
const BESIDE: &[u8] = b"\
v 3 0 0\nv 0 3 0\nv 0 0 3\nv 4 0 0\nv 0 4 0\nv 0 0 4\n\
f 1 2 3\nf 3 2 1\nf 4 5 6\nf 6 5 4\nf 4 5 4\n";

#[test]
fn a_plane_beside_a_box_keeps_its_triangle_away(rt: HostRuntime) -> Result<(), Fail> {
    let unit = unit_box();
    assert!(rt; unit.lo() == [0, 0, 0]);
    let scene = scene_of_files(rt.alloc(), &[BESIDE])?;
    assert!(rt; scene.tris.items().len() == 5);
    assert!(rt; near(&scene, &unit, 0));
    assert!(rt; near(&scene, &unit, 1));
    assert!(rt; !near(&scene, &unit, 2));
    assert!(rt; !near(&scene, &unit, 3));
    assert!(rt; near(&scene, &unit, 4));
    Ok(())
}

// Which of a job's triangles are near a box.
fn near_in(alloc: Global, s: &Scene, job: &Job, c: &Cell) -> Result<Vec<u32>, OutOfMemory>
    requires { IsJob s.now.tris job.now }
{
    near_list(alloc, s, job.list.items(), c)
}

// All triangles of a job, with these indices, are near a box.
fn are_near(alloc: Global, s: &Scene, job: &Job, c: &Cell, all: &[u32]) -> Result<bool, OutOfMemory>
    requires { IsJob s.now.tris job.now }
{
    Ok(near_in(alloc, s, job, c)?.as_slice() == all)
}

// All triangles of the files, with these indices, are near the root and near each of its halves.
fn check_near(rt: &impl Abort, alloc: Global, files: &[&[u8]], all: &[u32]) -> Result<(), Fail>
    requires { length files.now ≤ 64 }
{
    let scene = scene_of_files(alloc, files)?;
    let job = root_job(alloc, &scene)?;
    assert!(rt; job.list.items() == all);
    assert!(rt; are_near(alloc, &scene, &job, &root(), all)?);
    for &k in &AXES {
        let (low, high) = halves(&root(), k);
        assert!(rt; are_near(alloc, &scene, &job, &low, all)?);
        assert!(rt; are_near(alloc, &scene, &job, &high, all)?);
    }
    Ok(())
}

#[test]
fn triangles_that_touch_the_middle_are_near_each_half_of_the_root(
    rt: HostRuntime,
) -> Result<(), Fail> {
    check_near(&rt, rt.alloc(), &[TETRA], &[0, 1, 2, 3])?;
    let all: [u32; 20] = [
        0, 1, 2, 3, 4, 5, 6, 7, 8, 9, 10, 11, 12, 13, 14, 15, 16, 17, 18, 19,
    ];
    check_near(&rt, rt.alloc(), &[STAR, STAR, STAR, STAR, STAR], &all)
}

// The axis along which a job's box is halved, or none if it is a leaf; whether it is a leaf;
// and the axis that is best.
fn halving_of(s: &Scene, job: &Job) -> (Option<Axis>, bool, Axis)
    requires { IsJob s.now.tris job.now }
{
    let list = job.list.items();
    let axis = halving(s, list, &job.cell);
    (
        axis,
        is_leaf(s, list, &job.cell),
        split_axis(s, list, &job.cell),
    )
}

// The root over the files is halved along this axis, or it is a leaf.
fn check_halving(
    rt: &impl Abort,
    alloc: Global,
    files: &[&[u8]],
    want: Option<Axis>,
) -> Result<(), Fail>
    requires { length files.now ≤ 64 }
{
    let scene = scene_of_files(alloc, files)?;
    let job = root_job(alloc, &scene)?;
    let (axis, is_leaf, best) = halving_of(&scene, &job);
    assert!(rt; axis == want);
    assert!(rt; is_leaf == want.is_none());
    if let Some(k) = want {
        assert!(rt; best == k);
    }
    Ok(())
}

#[test]
fn few_triangles_or_none_to_be_parted_make_a_leaf(rt: HostRuntime) -> Result<(), Fail> {
    check_halving(&rt, rt.alloc(), &[TETRA, TETRA, TETRA, TETRA], None)?;
    // Each half of the root along each axis is near at least three of the four faces.
    check_halving(&rt, rt.alloc(), &[TETRA, TETRA, TETRA, TETRA, TETRA], None)
}

#[test]
fn triangles_apart_are_parted_along_the_first_best_axis(rt: HostRuntime) -> Result<(), Fail> {
    check_halving(
        &rt,
        rt.alloc(),
        &[APART, APART, APART, APART, APART],
        Some(Axis::Y),
    )?;
    check_halving(&rt, rt.alloc(), &[C, D], Some(Axis::X))
}

// The lists of the halves along y.
fn lists_of_halves(alloc: Global, s: &Scene, job: &Job) -> Result<(Vec<u32>, Vec<u32>), OutOfMemory>
    requires job { IsJob s.now.tris job.now }
    requires side { 0 < job.now.cell.log Axis.Y }
{
    near_halves(alloc, s, job.list.items(), &job.cell, Axis::Y)
}

// Whether the halves along y keep these triangles.
fn are_kept(
    alloc: Global,
    s: &Scene,
    job: &Job,
    lower: &[u32],
    upper: &[u32],
) -> Result<bool, OutOfMemory>
    requires { IsJob s.now.tris job.now }
{
    if job.cell.log(Axis::Y) > 0 {
        let (low, high) = lists_of_halves(alloc, s, job)?;
        return Ok(low.as_slice() == lower && high.as_slice() == upper);
    }
    Ok(false)
}

#[test]
fn each_half_keeps_the_triangles_that_reach_it(rt: HostRuntime) -> Result<(), Fail> {
    let scene = scene_of_files(rt.alloc(), &[TOUCHING])?;
    let job = root_job(rt.alloc(), &scene)?;
    assert!(rt; are_kept(rt.alloc(), &scene, &job, &[2, 3], &[0, 1, 2, 3])?);
    Ok(())
}

// What one look at each of a job's triangles tells of its box.
fn look_at(alloc: Global, s: &Scene, job: &Job) -> Result<Option<HalvedBox>, OutOfMemory>
    requires { IsJob s.now.tris job.now }
{
    halve_box(alloc, s, job.list.items(), &job.cell)
}

// The box is halved along this axis, into these lists.
fn is_halved(halved: &Option<HalvedBox>, axis: Axis, left: &[u32], right: &[u32]) -> bool {
    match halved {
        Some(halved) => {
            halved.axis == axis
                && halved.left.as_slice() == left
                && halved.right.as_slice() == right
        }
        None => false,
    }
}

#[test]
fn one_look_tells_the_axis_and_the_lists_of_both_halves(rt: HostRuntime) -> Result<(), Fail> {
    let alloc = rt.alloc();
    let scene = scene_of_files(alloc, &[APART, APART, APART, APART, APART])?;
    let job = root_job(alloc, &scene)?;
    let halved = look_at(alloc, &scene, &job)?;
    let left = [2, 3, 6, 7, 10, 11, 14, 15, 18, 19];
    let right = [0, 1, 4, 5, 8, 9, 12, 13, 16, 17];
    assert!(rt; is_halved(&halved, Axis::Y, &left, &right));
    Ok(())
}
