// Rings on the broad grid, of triangles whose corners are as far out as the grid goes.
ghost use Rattle.std.specs.Prelude.{◌≡◌, false};
ghost use Rattle.ember_algebra.specs.Size.{Small};
ghost use Rattle.ember_model.specs.Faces.{is_flat};
ghost use Rattle.ember_model.specs.Limits.{broad_limit};
ghost use Rattle.ember_model.specs.Within.{IsCornerWithin, IsTriWithin};
ghost use Rattle.ember_width.specs.Broad.{IsBroadPlane};

use ember_algebra::Sign;
use ember_coplanar::same_plane;
use ember_model::{Corner, OutOfMemory, Plane, Tri, main_edges, support_of};
use ember_poly::{
    Cut, Draft, Reach, Ring, corners, cut, meets, of_tri_on, reach, rings_are_bounded,
};
use ember_width::{Broad, BroadPoint, Width};
use std::alloc::Global;
use std::process::Abort;
use std::test::Fail;

// 2^19 - 1
const MOST: i32 = 524287;

// The coordinate, or 0 in place of one that no corner has.
fn coordinate(x: i32) -> i32
    ensures { Small broad_limit result }
{
    if x > 524287 || x < -524287 { 0 } else { x }
}

// The corner with these coordinates.
fn corner(at: [i32; 3]) -> Corner
    ensures { IsCornerWithin broad_limit result }
{
    Corner {
        x: coordinate(at[0]),
        y: coordinate(at[1]),
        z: coordinate(at[2]),
    }
}

// The triangle of mesh 1 with these corners.
fn triangle(corners: [[i32; 3]; 3]) -> Tri
    ensures { IsTriWithin broad_limit result }
{
    Tri {
        a: corner(corners[0]),
        b: corner(corners[1]),
        c: corner(corners[2]),
        mesh: 1,
    }
}

// The plane with this normal and constant.
fn plane(numbers: [i32; 4]) -> Plane
    ensures { IsBroadPlane result }
{
    Plane {
        a: i64::from(numbers[0]),
        b: i64::from(numbers[1]),
        c: i64::from(numbers[2]),
        d: i64::from(numbers[3]),
    }
}

// Twice the point's coordinates are these.
fn is_at(m: &BroadPoint, twice: [i32; 3]) -> bool {
    let [x, y, z] = twice;
    Broad::side(&plane([2, 0, 0, x]), m) == Sign::Zero
        && Broad::side(&plane([0, 2, 0, y]), m) == Sign::Zero
        && Broad::side(&plane([0, 0, 2, z]), m) == Sign::Zero
}

// The ring of the triangle with a corner at the end of each axis.
fn far_ring(alloc: Global) -> Result<Ring<Broad>, Fail> {
    let ends = triangle([[MOST, 0, 0], [0, MOST, 0], [0, 0, MOST]]);
    match of_tri_on::<Broad>(alloc, &ends)? {
        Some(ring) => Ok(ring),
        None => Err(Fail::from("no ring")),
    }
}

// Twice the coordinates of the ring's corners are these.
fn check(rt: &impl Abort, ring: &Ring<Broad>, wanted: &[[i32; 3]]) {
    rings_are_bounded(ring);
    let found = corners(ring);
    assert!(rt; found.len() == wanted.len());
    for (one, want) in found.iter().zip(wanted) {
        assert!(rt; is_at(one, *want));
    }
}

#[test]
fn the_ring_of_a_far_triangle(rt: HostRuntime) -> Result<(), Fail> {
    let starts = [[1048574, 0, 0], [0, 1048574, 0], [0, 0, 1048574]];
    check(&rt, &far_ring(rt.alloc())?, &starts);
    Ok(())
}

#[test]
fn on_which_sides_of_a_plane_a_far_ring_lies(rt: HostRuntime) -> Result<(), Fail> {
    let rows = [
        ([1, 0, 0, 524288], Reach::Below),
        ([1, 0, 0, 524287], Reach::Below),
        ([1, 0, 0, 524286], Reach::Both),
        ([1, 0, 0, -1], Reach::Above),
        ([1, 1, 1, 524287], Reach::On),
        ([2, 2, 2, 1048573], Reach::Above),
    ];
    let ring = far_ring(rt.alloc())?;
    for (numbers, want) in rows {
        assert!(rt; reach(&ring, &plane(numbers)) == want);
    }
    Ok(())
}

#[test]
fn a_far_triangle_cut_by_a_wall(rt: HostRuntime) -> Result<(), Fail> {
    let ring = far_ring(rt.alloc())?;
    let Cut::Both(low, high) = cut(rt.alloc(), &ring, &plane([1, 0, 0, 262143]))? else {
        return Err(Fail::from("one part"));
    };
    let below = [
        [524286, 524288, 0],
        [0, 1048574, 0],
        [0, 0, 1048574],
        [524286, 0, 524288],
    ];
    check(&rt, &low, &below);
    let above = [[1048574, 0, 0], [524286, 524288, 0], [524286, 0, 524288]];
    check(&rt, &high, &above);
    Ok(())
}

#[test]
fn a_far_triangle_cut_between_two_steps(rt: HostRuntime) -> Result<(), Fail> {
    let ring = far_ring(rt.alloc())?;
    let Cut::Both(low, high) = cut(rt.alloc(), &ring, &plane([2, 0, 0, 524287]))? else {
        return Err(Fail::from("one part"));
    };
    let below = [
        [524287, 524287, 0],
        [0, 1048574, 0],
        [0, 0, 1048574],
        [524287, 0, 524287],
    ];
    check(&rt, &low, &below);
    let above = [[1048574, 0, 0], [524287, 524287, 0], [524287, 0, 524287]];
    check(&rt, &high, &above);
    Ok(())
}

// What a plane leaves of a triangle in a draft.
fn clipped_in_a_draft(
    alloc: Global,
    t: &Tri,
    p: &Plane,
) -> Result<(Reach, Ring<Broad>), OutOfMemory>
    requires tri { IsTriWithin broad_limit t.now }
    requires normal { is_flat t.now ≡ false }
    requires plane { IsBroadPlane p.now }
{
    let mut draft: Draft<Broad> = Draft::new(alloc);
    let support = support_of(t);
    draft.begin(t, &support, &main_edges(t, &support))?;
    let side = draft.clip(p)?;
    Ok((side, draft.ring(alloc, 0)?))
}

// The same of a triangle that may be flat, which gives nothing.
fn left_in_a_draft(
    alloc: Global,
    t: &Tri,
    p: &Plane,
) -> Result<Option<(Reach, Ring<Broad>)>, OutOfMemory>
    requires tri { IsTriWithin broad_limit t.now }
    requires plane { IsBroadPlane p.now }
{
    match of_tri_on::<Broad>(alloc, t)? {
        Some(_) => Ok(Some(clipped_in_a_draft(alloc, t, p)?)),
        None => Ok(None),
    }
}

#[test]
fn a_far_triangle_clipped_in_a_draft(rt: HostRuntime) -> Result<(), Fail> {
    let ends = triangle([[MOST, 0, 0], [0, MOST, 0], [0, 0, MOST]]);
    let Some((side, low)) = left_in_a_draft(rt.alloc(), &ends, &plane([0, 2, 0, 524287]))? else {
        return Err(Fail::from("a flat triangle"));
    };
    assert!(rt; side == Reach::Both);
    let below = [
        [1048574, 0, 0],
        [524287, 524287, 0],
        [0, 524287, 524287],
        [0, 0, 1048574],
    ];
    check(&rt, &low, &below);
    Ok(())
}

// Whether the ring of the one triangle meets the other. None if there are no two rings.
fn meeting(alloc: Global, t: &Tri, u: &Tri) -> Result<Option<bool>, OutOfMemory>
    requires first { IsTriWithin broad_limit t.now }
    requires second { IsTriWithin broad_limit u.now }
{
    let Some(ring) = of_tri_on::<Broad>(alloc, t)? else {
        return Ok(None);
    };
    match of_tri_on::<Broad>(alloc, u)? {
        Some(_) => Ok(Some(meets(&ring, u))),
        None => Ok(None),
    }
}

#[test]
fn far_triangles_that_meet(rt: HostRuntime) -> Result<(), Fail> {
    let far = triangle([[MOST, 0, 0], [0, MOST, 0], [0, 0, MOST]]);
    let across = triangle([[0, 0, 0], [MOST, MOST, MOST], [0, 0, MOST]]);
    let beyond = triangle([[MOST, MOST, MOST], [MOST, MOST, 0], [MOST, 0, MOST]]);
    let within = triangle([
        [174763, 174762, 174762],
        [174762, 174763, 174762],
        [174762, 174762, 174763],
    ]);
    assert!(rt; meeting(rt.alloc(), &far, &across)? == Some(true));
    assert!(rt; meeting(rt.alloc(), &far, &beyond)? == Some(false));
    assert!(rt; meeting(rt.alloc(), &far, &within)? == Some(true));
    assert!(rt; same_plane(&far, &within));
    assert!(rt; !same_plane(&far, &across));
    Ok(())
}
