// Boxes in steps of the broad grid, of which a unit has 256: where they lie, what is near them, how
// they are halved, and a vector carried along one.
ghost use Rattle.std.specs.Prelude.{◌<◌, All};
ghost use Rattle.ember_algebra.specs.Size.{Small};
ghost use Rattle.ember_model.specs.declared.point.Axis as axis;
ghost use Rattle.ember_model.specs.Limits.{broad_limit};
ghost use Rattle.ember_model.specs.Meshes.{HasMesh};
ghost use Rattle.ember_model.specs.Within.{IsCornerWithin, IsTriWithin};

use ember_algebra::Sign;
use ember_box::{Cell, aabb_on, halve_box_among, halves, lo_on, near_list_among, root};
use ember_model::{Axis, Corner, OutOfMemory, Plane, Tri, Vector};
use ember_ref::{shift_listed_on, side_beside};
use ember_width::{Broad, Narrow};
use std::alloc::Global;
use std::test::Fail;

#[test]
fn boxes_lie_at_multiples_of_their_units(rt: HostRuntime) {
    let whole = root();
    assert!(rt; lo_on::<Narrow>(&whole) == [-2048, -2048, -2048]);
    assert!(rt; lo_on::<Broad>(&whole) == [-524288, -524288, -524288]);
    let (_, right) = halves(&whole, Axis::X);
    assert!(rt; lo_on::<Broad>(&right) == [0, -524288, -524288]);
    let aabb = aabb_on::<Broad>(&right);
    assert!(rt; (aabb.x.low, aabb.x.high) == (0, 524288));
    assert!(rt; (aabb.z.low, aabb.z.high) == (-524288, 524288));
}

// The coordinate, or 0 in place of one that no corner has.
fn coordinate(x: i32) -> i32
    ensures { Small broad_limit result }
{
    if x > 524287 || x < -524287 { 0 } else { x }
}

// The corner with these coordinates.
fn corner(at: [i32; 3]) -> Corner
    ensures { IsCornerWithin broad_limit result }
{
    Corner {
        x: coordinate(at[0]),
        y: coordinate(at[1]),
        z: coordinate(at[2]),
    }
}

// A triangle of mesh 1 across the x axis, with its front towards greater x.
fn across_x(x: i32) -> Tri
    ensures within { IsTriWithin broad_limit result }
    ensures mesh { HasMesh 64 result }
{
    Tri {
        a: corner([x, -10, -10]),
        b: corner([x, 20, -10]),
        c: corner([x, -10, 20]),
        mesh: 1,
    }
}

// The eighth of the root box, halved once along y and z, in which y and z are at least 0.
fn beam() -> Cell
    ensures { 0 < result.log Axis.X }
{
    let (_, right) = halves(&root(), Axis::Y);
    halves(&right, Axis::Z).1
}

// The indices of the triangles across x = -300000 and x = 300000 that are near the box.
fn near_of_two(alloc: Global, c: &Cell) -> Result<Vec<u32>, OutOfMemory> {
    let tris = [across_x(-300000), across_x(300000)];
    near_list_among::<Broad>(alloc, &tris, &[0, 1], c)
}

// Whether the box isn't halved, if these two are all triangles.
fn is_leaf_of_two(alloc: Global, c: &Cell) -> Result<bool, OutOfMemory> {
    let tris = [across_x(-300000), across_x(300000)];
    Ok(halve_box_among::<Broad>(alloc, &tris, &[0, 1], c)?.is_none())
}

#[test]
fn triangles_are_near_boxes_in_steps(rt: HostRuntime) -> Result<(), Fail> {
    let alloc = rt.alloc();
    let (left, right) = halves(&beam(), Axis::X);
    assert!(rt; near_of_two(alloc, &beam())?.as_slice() == [0, 1].as_slice());
    assert!(rt; near_of_two(alloc, &left)?.as_slice() == [0].as_slice());
    assert!(rt; near_of_two(alloc, &right)?.as_slice() == [1].as_slice());
    assert!(rt; is_leaf_of_two(alloc, &root())?);
    Ok(())
}

// The count of mesh 1 carried to the upper half of the beam along x, from 0, by one triangle.
fn carried(x: i32) -> i32 {
    let tris = [across_x(x)];
    let mut v = Vector { counts: [0; 64] };
    shift_listed_on::<Broad>(&tris, &[0], &beam(), Axis::X, &mut v);
    v.counts[0]
}

#[test]
fn a_vector_is_carried_along_a_beam(rt: HostRuntime) {
    // The box's reference point is beside x = -524288, that of its upper half beside x = 0.
    assert!(rt; carried(-524287) == -1);
    assert!(rt; carried(-1) == -1);
    assert!(rt; carried(0) == -1);
    assert!(rt; carried(1) == 0);
}

#[test]
fn signs_beside_a_corner_of_the_root(rt: HostRuntime) {
    let far = Plane {
        a: -1099507433476,
        b: 1099507433476,
        c: 0,
        d: 0,
    };
    assert!(rt; side_beside(&far, [524288, 524288, -524288]) == Sign::Neg);
    assert!(rt; side_beside(&far, [524287, 524288, -524288]) == Sign::Pos);
}
