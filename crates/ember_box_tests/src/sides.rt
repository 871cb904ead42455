// The winding numbers on both sides of regions, found in two ways.
ghost use Rattle.std.specs.Prelude.{◌<◌, ◌≤◌, length};
ghost use Rattle.ember_visit.specs.Jobs.{IsJob};

use crate::scenes::{expression, scene_of_files};
use crate::texts::{C, D, STAR, TETRA, WEDGE_A, WEDGE_B};
use ember_box::Cell;
use ember_expr::Expr;
use ember_gen::scene_of;
use ember_job::{Job, Outcome};
use ember_leaf::Kept;
use ember_model::{Axis, OutOfMemory, Scene, Tri, Vector};
use ember_poly::{Ring, of_tri};
use ember_step::{box_step, root_job};
use ember_trace::{Sides, sides_traced, sides_whole};
use ember_visit::listed_tris;
use std::alloc::Global;
use std::process::Abort;
use std::test::Fail;

// The sides of the region, or none if they differ from those that all triangles of the scene give.
fn sides_of(alloc: Global, s: &Scene, job: &Job, ring: &Ring) -> Result<Option<Sides>, OutOfMemory>
    requires { IsJob s.now.tris job.now }
{
    let near = listed_tris(alloc, s.tris.items(), job.list.items())?;
    let traced = sides_traced(alloc, &near, &job.cell, &job.at, ring)?;
    let whole = sides_whole(alloc, s, ring)?;
    Ok(if traced == whole { Some(traced) } else { None })
}

fn one_count(count: i32) -> Vector {
    let mut v = Vector { counts: [0; 64] };
    v.counts[0] = count;
    v
}

// The sides of a triangle's face.
fn face_sides(alloc: Global, s: &Scene, job: &Job, i: usize) -> Result<Option<Sides>, OutOfMemory>
    requires job { IsJob s.now.tris job.now }
    requires place { i < length s.now.tris }
{
    match of_tri(alloc, &s.tris.items()[i])? {
        Some(ring) => sides_of(alloc, s, job, &ring),
        None => Ok(None),
    }
}

#[test]
fn the_sides_of_a_tetrahedron(rt: HostRuntime) -> Result<(), Fail> {
    let alloc = rt.alloc();
    let scene = scene_of_files(alloc, &[TETRA])?;
    assert!(rt; scene.tris.items().len() == 4);
    let job = root_job(alloc, &scene)?;
    let after = [1, 1, 1, 0];
    for i in 0..4 {
        let want = Sides {
            before: one_count(1 - after[i]),
            after: one_count(after[i]),
        };
        assert!(rt; face_sides(alloc, &scene, &job, i)? == Some(want));
    }
    Ok(())
}

// How many regions were looked at, and of how many the sides differ; and of the last leaf its box
// and how many triangles are near it.
#[derive(Clone, Copy)]
struct Seen {
    regions: u64,
    differing: u64,
    corner: [i32; 3],
    sides: [i32; 3],
    near: usize,
}

// Counts the regions of a leaf.
fn see_leaf(
    alloc: Global,
    s: &Scene,
    job: &Job,
    kept: &[Kept],
    seen: &mut Seen,
) -> Result<(), OutOfMemory>
    requires { IsJob s.now.tris job.now }
{
    let c = &job.cell;
    seen.corner = c.lo();
    seen.sides = [c.side(Axis::X), c.side(Axis::Y), c.side(Axis::Z)];
    seen.near = job.list.items().len();
    for region in kept {
        seen.regions = seen.regions.saturating_add(1);
        if sides_of(alloc, s, job, &region.ring)?.is_none() {
            seen.differing = seen.differing.saturating_add(1);
        }
    }
    Ok(())
}

// Counts the regions of all leaves below a box, down to so many halvings.
fn see_below(
    alloc: Global,
    s: &Scene,
    e: &Expr,
    job: &Job,
    left: u32,
    seen: &mut Seen,
) -> Result<(), OutOfMemory>
    requires { IsJob s.now.tris job.now }
{
    match box_step(alloc, s, e, job)? {
        Outcome::Halves(left_job, right_job) => {
            if left > 0 {
                see_below(alloc, s, e, &left_job, left - 1, seen)?;
                see_below(alloc, s, e, &right_job, left - 1, seen)?;
            }
            Ok(())
        }
        Outcome::Leaf(kept) => see_leaf(alloc, s, job, kept.items(), seen),
        Outcome::Skipped => Ok(()),
    }
}

// What there is to see of all leaves where the expression isn't known.
fn see_all(alloc: Global, s: &Scene, text: &[u8]) -> Result<Seen, Fail> {
    let mut seen = Seen {
        regions: 0,
        differing: 0,
        corner: [0; 3],
        sides: [0; 3],
        near: 0,
    };
    let e = expression(alloc, text, 5)?;
    let root = root_job(alloc, s)?;
    see_below(alloc, s, &e, &root, 36, &mut seen)?;
    Ok(seen)
}

// The sides of all regions where the expression changes are the same by each way, and there are
// at least so many of them.
fn check(rt: &impl Abort, alloc: Global, s: &Scene, text: &[u8], least: u64) -> Result<(), Fail> {
    let seen = see_all(alloc, s, text)?;
    assert!(rt; seen.differing == 0);
    assert!(rt; seen.regions >= least);
    Ok(())
}

// The same over files, for the first two meshes.
fn check_files(rt: &impl Abort, alloc: Global, files: &[&[u8]], least: u64) -> Result<(), Fail>
    requires { length files.now ≤ 64 }
{
    let scene = scene_of_files(alloc, files)?;
    check(rt, alloc, &scene, b"m1", least)?;
    check(rt, alloc, &scene, b"m2", least)
}

// Each triangle has a region at least; of equal triangles the first has it.
#[test]
fn sides_are_the_same_by_each_way(rt: HostRuntime) -> Result<(), Fail> {
    let alloc = rt.alloc();
    check_files(&rt, alloc, &[C, D], 12)?;
    check_files(&rt, alloc, &[WEDGE_A, WEDGE_B], 4)?;
    check_files(&rt, alloc, &[STAR, STAR, STAR, STAR, STAR], 4)
}

#[test]
fn so_they_are_for_a_generated_box(rt: HostRuntime) -> Result<(), Fail> {
    let alloc = rt.alloc();
    let scene = scene_of(alloc, 1)?;
    check(&rt, alloc, &scene, b"m1", 12)
}

// The last leaf is the box from the corner 0 with the side 8.
#[test]
fn all_triangles_of_two_cubes_are_near_the_last_leaf(rt: HostRuntime) -> Result<(), Fail> {
    let alloc = rt.alloc();
    let scene = scene_of_files(alloc, &[C, D])?;
    let seen = see_all(alloc, &scene, b"m1|m2")?;
    assert!(rt; (seen.regions, seen.differing, seen.near) == (26, 0, 24));
    let corner = seen.corner;
    assert!(rt; corner == [0, 0, 0]);
    let sides = seen.sides;
    assert!(rt; sides == [8, 8, 8]);
    Ok(())
}
