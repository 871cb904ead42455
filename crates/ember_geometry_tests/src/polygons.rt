// Rings of triangles, their parts below and above planes, and the triangles that they meet.
ghost use Rattle.std.specs.Prelude.{◌≡◌, false};
ghost use Rattle.ember_model.specs.Faces.{is_flat};
ghost use Rattle.ember_model.specs.Valid.{IsValidPlane, IsValidTri};

use crate::shapes::{is_at, plane, triangle};
use ember_model::{OutOfMemory, Plane, Tri, main_edges, support_of};
use ember_poly::{
    Cut, Draft, Reach, Ring, above, clip, copy, corners, cut, edges, meets, meets_face, of_tri,
    outline, parts, planes, reach, support,
};
use std::alloc::Global;
use std::process::Abort;
use std::test::Fail;

// The ring of the triangle with the corners (1, 0, 0), (0, 1, 0) and (0, 0, 1).
fn unit_ring(alloc: Global) -> Result<Ring, Fail> {
    match of_tri(alloc, &triangle([[1, 0, 0], [0, 1, 0], [0, 0, 1]]))? {
        Some(ring) => Ok(ring),
        None => Err(Fail::from("no ring")),
    }
}

// The ring has these edge planes, and at these corners its edges start.
fn check(rt: &impl Abort, ring: &Ring, planes: &[[i16; 4]], starts: &[[i128; 4]]) {
    let (found_planes, found_starts) = outline(ring);
    assert!(rt; found_planes.len() == planes.len());
    for (found, want) in found_planes.iter().zip(planes) {
        assert!(rt; *found == plane(*want));
    }
    assert!(rt; found_starts.len() == starts.len());
    for (found, want) in found_starts.iter().zip(starts) {
        assert!(rt; is_at(found, *want));
    }
    assert!(rt; edges(ring) == found_planes && corners(ring) == found_starts);
}

static UNIT_PLANES: [[i16; 4]; 3] = [[0, 0, -1, 0], [0, 1, 1, 1], [0, -1, 0, 0]];

static UNIT_STARTS: [[i128; 4]; 3] = [[1, 0, 0, 1], [0, 1, 0, 1], [0, 0, 1, 1]];

#[test]
fn the_ring_of_a_triangle(rt: HostRuntime) -> Result<(), Fail> {
    let ring = unit_ring(rt.alloc())?;
    let same = copy(rt.alloc(), &ring)?;
    for ring in [&ring, &same] {
        assert!(rt; support(ring) == plane([1, 1, 1, 1]));
        check(&rt, ring, &UNIT_PLANES, &UNIT_STARTS);
    }
    Ok(())
}

#[test]
fn a_flat_triangle_has_no_ring(rt: HostRuntime) -> Result<(), Fail> {
    let flat = triangle([[1, 0, 0], [1, 0, 0], [0, 0, 1]]);
    assert!(rt; of_tri(rt.alloc(), &flat)?.is_none());
    Ok(())
}

static SIDES: [([i16; 4], Reach); 6] = [
    ([1, 0, 0, 1], Reach::Below),
    ([-1, 0, 0, 0], Reach::Below),
    ([1, 0, 0, -1], Reach::Above),
    ([2, 2, 2, 2], Reach::On),
    ([2, 0, 0, 1], Reach::Both),
    ([1, -1, 0, 0], Reach::Both),
];

#[test]
fn on_which_sides_of_a_plane_a_ring_lies(rt: HostRuntime) -> Result<(), Fail> {
    let ring = unit_ring(rt.alloc())?;
    for &(numbers, want) in &SIDES {
        assert!(rt; reach(&ring, &plane(numbers)) == want);
    }
    Ok(())
}

// The planes and starts of the parts of the unit ring below and above 2x = 1.
static LOW_PLANES: [[i16; 4]; 4] = [[0, 0, -1, 0], [0, 1, 1, 1], [0, -1, 0, 0], [2, 0, 0, 1]];

static LOW_STARTS: [[i128; 4]; 4] = [[1, 1, 0, 2], [0, 1, 0, 1], [0, 0, 1, 1], [1, 0, 1, 2]];

static HIGH_PLANES: [[i16; 4]; 3] = [[0, 0, -1, 0], [-2, 0, 0, -1], [0, -1, 0, 0]];

static HIGH_STARTS: [[i128; 4]; 3] = [[1, 0, 0, 1], [1, 1, 0, 2], [1, 0, 1, 2]];

#[test]
fn a_cut_triangle(rt: HostRuntime) -> Result<(), Fail> {
    let ring = unit_ring(rt.alloc())?;
    let Cut::Both(low, high) = cut(rt.alloc(), &ring, &plane([2, 0, 0, 1]))? else {
        return Err(Fail::from("one part"));
    };
    check(&rt, &low, &LOW_PLANES, &LOW_STARTS);
    check(&rt, &high, &HIGH_PLANES, &HIGH_STARTS);
    Ok(())
}

// The ring keeps these planes, in the order in which they were added.
fn check_planes(rt: &impl Abort, ring: &Ring, wanted: &[[i16; 4]]) {
    let found = planes(ring);
    assert!(rt; found.len() == wanted.len());
    for (one, want) in found.iter().zip(wanted) {
        assert!(rt; *one == plane(*want));
    }
}

static ALL_OF_HIGH: [[i16; 4]; 4] = [[0, 0, -1, 0], [0, 1, 1, 1], [0, -1, 0, 0], [-2, 0, 0, -1]];

#[test]
fn a_part_of_a_triangle_keeps_all_its_planes(rt: HostRuntime) -> Result<(), Fail> {
    let ring = unit_ring(rt.alloc())?;
    let Cut::Both(low, high) = cut(rt.alloc(), &ring, &plane([2, 0, 0, 1]))? else {
        return Err(Fail::from("one part"));
    };
    check_planes(&rt, &low, &LOW_PLANES);
    check_planes(&rt, &high, &ALL_OF_HIGH);
    Ok(())
}

#[test]
fn a_clipped_triangle(rt: HostRuntime) -> Result<(), Fail> {
    let (side, low) = clip(unit_ring(rt.alloc())?, &plane([2, 0, 0, 1]))?;
    assert!(rt; side == Reach::Both);
    check(&rt, &low, &LOW_PLANES, &LOW_STARTS);
    Ok(())
}

// What a plane leaves of a triangle in a draft, and on which sides of the plane the triangle lies.
fn clipped_in_a_draft(alloc: Global, t: &Tri, p: &Plane) -> Result<(Reach, Ring), OutOfMemory>
    requires tri { IsValidTri t.now }
    requires normal { is_flat t.now ≡ false }
    requires plane { IsValidPlane p.now }
{
    let mut draft = Draft::new(alloc);
    let support = support_of(t);
    draft.begin(t, &support, &main_edges(t, &support))?;
    let side = draft.clip(p)?;
    Ok((side, draft.ring(alloc, 0)?))
}

// The same of a triangle that may be flat, which gives nothing.
fn left_in_a_draft(alloc: Global, t: &Tri, p: &Plane) -> Result<Option<(Reach, Ring)>, OutOfMemory>
    requires tri { IsValidTri t.now }
    requires plane { IsValidPlane p.now }
{
    match of_tri(alloc, t)? {
        Some(_) => Ok(Some(clipped_in_a_draft(alloc, t, p)?)),
        None => Ok(None),
    }
}

#[test]
fn a_triangle_clipped_in_a_draft(rt: HostRuntime) -> Result<(), Fail> {
    let tri = triangle([[1, 0, 0], [0, 1, 0], [0, 0, 1]]);
    let Some((side, low)) = left_in_a_draft(rt.alloc(), &tri, &plane([2, 0, 0, 1]))? else {
        return Err(Fail::from("a flat triangle"));
    };
    assert!(rt; side == Reach::Both);
    check(&rt, &low, &LOW_PLANES, &LOW_STARTS);
    Ok(())
}

// The parts of a ring below and above a plane, if there are both.
fn both_parts(alloc: Global, r: Ring, p: &Plane) -> Result<Option<(Ring, Ring)>, OutOfMemory>
    requires { IsValidPlane p.now }
{
    match reach(&r, p) {
        Reach::Both => Ok(Some(parts(alloc, r, p)?)),
        _ => Ok(None),
    }
}

#[test]
fn the_parts_of_a_triangle(rt: HostRuntime) -> Result<(), Fail> {
    let ring = unit_ring(rt.alloc())?;
    let Some((low, high)) = both_parts(rt.alloc(), ring, &plane([2, 0, 0, 1]))? else {
        return Err(Fail::from("one part"));
    };
    check(&rt, &low, &LOW_PLANES, &LOW_STARTS);
    check(&rt, &high, &HIGH_PLANES, &HIGH_STARTS);
    Ok(())
}

// The part of a ring above a plane, if there are both parts.
fn part_above(r: Ring, p: &Plane) -> Result<Option<Ring>, OutOfMemory>
    requires { IsValidPlane p.now }
{
    match reach(&r, p) {
        Reach::Both => Ok(Some(above(r, p)?)),
        _ => Ok(None),
    }
}

#[test]
fn the_part_of_a_triangle_above_a_plane(rt: HostRuntime) -> Result<(), Fail> {
    let Some(high) = part_above(unit_ring(rt.alloc())?, &plane([2, 0, 0, 1]))? else {
        return Err(Fail::from("one part"));
    };
    check(&rt, &high, &HIGH_PLANES, &HIGH_STARTS);
    Ok(())
}

// Whether a ring meets the triangle, and whether it meets the triangle's ring.
fn meets_both(r: &Ring, u: &Tri, q: &Ring) -> (bool, bool)
    requires tri { IsValidTri u.now }
    requires normal { is_flat u.now ≡ false }
{
    (meets(r, u), meets_face(r, &support(q), outline(q).0))
}

// The ring of the one triangle meets the other, by both calls; or not by both, or there are no
// two rings.
fn meeting(alloc: Global, t: &Tri, u: &Tri) -> Result<Option<bool>, OutOfMemory>
    requires first { IsValidTri t.now }
    requires second { IsValidTri u.now }
{
    let Some(ring) = of_tri(alloc, t)? else {
        return Ok(None);
    };
    match of_tri(alloc, u)? {
        Some(other) => {
            let (by_triangle, by_face) = meets_both(&ring, u, &other);
            Ok(if by_triangle == by_face {
                Some(by_face)
            } else {
                None
            })
        }
        None => Ok(None),
    }
}

// The corners of two tetrahedra with right angles at their first corners, and another.
const O: [i32; 3] = [0, 0, 0];

const A: [i32; 3] = [2, 0, 0];

const B: [i32; 3] = [0, 2, 0];

const C: [i32; 3] = [0, 0, 2];

const P: [i32; 3] = [1, 0, 0];

const Q: [i32; 3] = [3, 0, 0];

const R: [i32; 3] = [1, 2, 0];

const S: [i32; 3] = [1, 0, 2];

const T: [i32; 3] = [0, 2, 2];

static OF_SEVERAL_PLANES: [([[i32; 3]; 3], [[i32; 3]; 3], bool); 6] = [
    ([A, B, C], [P, R, Q], false),
    ([P, R, Q], [A, B, C], true),
    ([A, B, C], [P, S, R], true),
    ([O, B, A], [P, R, Q], true),
    ([O, B, A], [O, A, C], false),
    ([O, B, A], [C, S, T], false),
];

#[test]
fn rings_and_triangles_of_several_planes(rt: HostRuntime) -> Result<(), Fail> {
    for &(one, other, want) in &OF_SEVERAL_PLANES {
        let meet = meeting(rt.alloc(), &triangle(one), &triangle(other))?;
        assert!(rt; meet == Some(want));
    }
    Ok(())
}

const SMALL: [[i32; 3]; 3] = [[0, 0, 0], [1, 0, 0], [0, 1, 0]];

const LARGE: [[i32; 3]; 3] = [[-4, -1, 0], [4, -1, 0], [0, 4, 0]];

static OF_ONE_PLANE: [([[i32; 3]; 3], [[i32; 3]; 3], bool); 6] = [
    (SMALL, SMALL, true),
    (SMALL, LARGE, true),
    (LARGE, SMALL, true),
    (SMALL, [[1, 0, 0], [4, 4, 0], [0, 1, 0]], false),
    (SMALL, [[1, 0, 0], [2, 0, 0], [4, 4, 0]], false),
    (
        [[0, 0, 0], [2, 0, 0], [0, 4, 0]],
        [[1, 0, 0], [2, 0, 0], [4, 4, 0]],
        true,
    ),
];

#[test]
fn rings_and_triangles_of_one_plane(rt: HostRuntime) -> Result<(), Fail> {
    for &(one, other, want) in &OF_ONE_PLANE {
        let meet = meeting(rt.alloc(), &triangle(one), &triangle(other))?;
        assert!(rt; meet == Some(want));
    }
    Ok(())
}
