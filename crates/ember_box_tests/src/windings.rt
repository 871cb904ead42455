// Winding numbers of a scene, counted along rays and on ways.
ghost use Rattle.std.specs.Prelude.{◌≤◌, length};
ghost use Rattle.ember_model.specs.declared.point.Axis.TheVariants.{X};
ghost use Rattle.ember_model.specs.Points.{DifferAlong};
ghost use Rattle.ember_model.specs.Valid.{IsValidSpot};

use crate::scenes::{first_counts, scene_of_files};
use crate::texts::{TETRA, WEDGE_B};
use ember_law::{axis_count, leg_count};
use ember_model::{Axis, Scene, Spot, Vector};
use std::alloc::Global;
use std::process::Abort;
use std::test::Fail;

// The counts along an axis from a point.
fn counts_along(s: &Scene, p: &Spot, k: Axis) -> [i32; 3]
    requires { IsValidSpot p.now }
{
    let mut v = Vector { counts: [0; 64] };
    axis_count(s, p, k, &mut v);
    first_counts(&v)
}

// The crossings of the way between two points.
fn crossings(s: &Scene, p: &Spot, q: &Spot) -> [i32; 3]
    requires from { IsValidSpot p.now }
    requires to { IsValidSpot q.now }
    requires line { DifferAlong X p.now q.now }
{
    let mut v = Vector { counts: [0; 64] };
    leg_count(s, p, q, Axis::X, &mut v);
    first_counts(&v)
}

// The point (1, 2, 3) / 16, and (17, 2, 3) / 16.
const NEAR: Spot = Spot {
    x: 1,
    y: 2,
    z: 3,
    w: 16,
};

const FAR: Spot = Spot {
    x: 17,
    y: 2,
    z: 3,
    w: 16,
};

// The counts at the near point, and the crossings of the way from there to the far one and back.
fn check(
    rt: &impl Abort,
    alloc: Global,
    files: &[&[u8]],
    counts: [i32; 3],
    out: [i32; 3],
    back: [i32; 3],
) -> Result<(), Fail>
    requires { length files.now ≤ 64 }
{
    let scene = scene_of_files(alloc, files)?;
    for k in [Axis::X, Axis::Y, Axis::Z] {
        assert!(rt; counts_along(&scene, &NEAR, k) == counts);
    }
    assert!(rt; crossings(&scene, &NEAR, &FAR) == out);
    assert!(rt; crossings(&scene, &FAR, &NEAR) == back);
    Ok(())
}

#[test]
fn counts_from_a_point_and_on_a_way(rt: HostRuntime) -> Result<(), Fail> {
    let alloc = rt.alloc();
    check(&rt, alloc, &[TETRA], [1, 0, 0], [1, 0, 0], [-1, 0, 0])?;
    // The way leaves the third mesh and enters the others.
    check(
        &rt,
        alloc,
        &[WEDGE_B, WEDGE_B, TETRA],
        [0, 0, 1],
        [-1, -1, 1],
        [1, 1, -1],
    )
}
