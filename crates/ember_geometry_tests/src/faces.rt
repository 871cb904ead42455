// Faces of triangles, crossings of rays with them, and clear points.
ghost use Rattle.ember_model.specs.Valid.{IsValidSpot, IsValidTri};

use crate::shapes::{plane, slid, spot, tetra, triangle};
use ember_model::{
    Axis, Face, OutOfMemory, Plane, Spot, Tri, clear, crossing, edge_plane, face_clear,
    face_crossing, face_of, leg, main_axis, plane_value, support_of,
};
use std::alloc::Global;
use std::test::Fail;

// The support plane and the edge planes that the faces of the tetrahedron have.
static PLANES_OF_TETRA: [[[i16; 4]; 4]; 4] = [
    [[0, 0, -1, 0], [-1, 0, 0, 0], [1, 1, 0, 1], [0, -1, 0, 0]],
    [[0, -1, 0, 0], [0, 0, -1, 0], [1, 0, 1, 1], [-1, 0, 0, 0]],
    [[-1, 0, 0, 0], [0, -1, 0, 0], [0, 1, 1, 1], [0, 0, -1, 0]],
    [[1, 1, 1, 1], [0, 0, -1, 0], [0, 1, 1, 1], [0, -1, 0, 0]],
];

fn has_planes(face: &Face, want: &[[i16; 4]; 4]) -> bool {
    let edges = [plane(want[1]), plane(want[2]), plane(want[3])];
    face.support == plane(want[0]) && face.edges.items() == edges.as_slice()
}

// The second edge plane of a triangle, along the main axis of its support plane.
fn second_edge(t: &Tri) -> Plane
    requires { IsValidTri t.now }
{
    edge_plane(t, 1, main_axis(&support_of(t)))
}

#[test]
fn faces_of_the_tetrahedron(rt: HostRuntime) -> Result<(), Fail> {
    for i in 0..4 {
        let t = tetra(i);
        let want = PLANES_OF_TETRA[i];
        let Some(face) = face_of(rt.alloc(), &t)? else {
            return Err(Fail::from("no face"));
        };
        assert!(rt; has_planes(&face, &want));
        assert!(rt; support_of(&t) == plane(want[0]));
        assert!(rt; second_edge(&t) == plane(want[2]));
    }
    Ok(())
}

// Whether the point is clear of the triangle, or none if it is otherwise for its face.
fn clear_by_both(alloc: Global, p: &Spot, t: &Tri) -> Result<Option<bool>, OutOfMemory>
    requires spot { IsValidSpot p.now }
    requires tri { IsValidTri t.now }
{
    let is_clear = clear(p, t);
    match face_of(alloc, t)? {
        Some(face) if face_clear(p, &face) != is_clear => Ok(None),
        _ => Ok(Some(is_clear)),
    }
}

// The crossing of the ray with the triangle, or none if there is no face or that with it is
// another.
fn crossing_by_both(alloc: Global, p: &Spot, k: Axis, t: &Tri) -> Result<Option<i32>, OutOfMemory>
    requires spot { IsValidSpot p.now }
    requires tri { IsValidTri t.now }
{
    let count = crossing(p, k, t);
    match face_of(alloc, t)? {
        Some(face) if face_crossing(p, k, &face) == count => Ok(Some(count)),
        _ => Ok(None),
    }
}

// How often a ray along each axis crosses each face.
static CROSSINGS: [(Axis, [i32; 4]); 3] = [
    (Axis::X, [0, 0, 0, 1]),
    (Axis::Y, [0, 0, 0, 1]),
    (Axis::Z, [0, 0, 0, 1]),
];

#[test]
fn rays_leave_the_tetrahedron_once(rt: HostRuntime) -> Result<(), Fail> {
    let p = spot([1, 2, 3], 16);
    for &(k, want) in &CROSSINGS {
        for i in 0..4 {
            let count = crossing_by_both(rt.alloc(), &p, k, &tetra(i))?;
            assert!(rt; count == Some(want[i]));
        }
    }
    for i in 0..4 {
        assert!(rt; clear_by_both(rt.alloc(), &p, &tetra(i))? == Some(true));
    }
    Ok(())
}

// The two triangles of the side x = 4 of the cube from 0 to 4 on each axis.
const LOW: [[i32; 3]; 3] = [[4, 0, 0], [4, 4, 0], [4, 4, 4]];

const HIGH: [[i32; 3]; 3] = [[4, 0, 0], [4, 4, 4], [4, 0, 4]];

// A triangle without a face.
const FLAT: [[i32; 3]; 3] = [[0, 0, 0], [1, 1, 1], [2, 2, 2]];

const O: [i32; 3] = [0, 0, 0];

const X: [i32; 3] = [1, 0, 0];

const Y: [i32; 3] = [0, 1, 0];

const Z: [i32; 3] = [0, 0, 1];

static POINTS: [([i32; 3], u32, [[i32; 3]; 3], bool); 10] = [
    // on the face x = 0
    ([0, 1, 1], 4, [O, Z, Y], false),
    // its ray along x meets an edge of two faces
    ([-1, 1, 1], 2, [O, Z, Y], false),
    ([-1, 1, 1], 2, [X, Y, Z], false),
    ([-1, 1, 1], 2, [O, Y, X], true),
    // on the side of the cube, and with a ray to its diagonal
    ([4, 1, 2], 1, HIGH, false),
    ([1, 2, 2], 1, LOW, false),
    ([1, 2, 2], 1, HIGH, false),
    ([10, 11, 13], 4, LOW, true),
    ([10, 11, 13], 4, HIGH, true),
    ([1, 1, 1], 1, FLAT, true),
];

#[test]
fn points_that_are_clear_and_points_that_are_not(rt: HostRuntime) -> Result<(), Fail> {
    for &(at, w, corners, want) in &POINTS {
        assert!(rt; w > 0);
        let is_clear = clear_by_both(rt.alloc(), &spot(at, w), &triangle(corners))?;
        assert!(rt; is_clear == Some(want));
    }
    Ok(())
}

static RAYS: [(Axis, [[i32; 3]; 3], i32); 4] = [
    (Axis::X, LOW, 0),
    (Axis::X, HIGH, 1),
    (Axis::Y, HIGH, 0),
    (Axis::X, FLAT, 0),
];

#[test]
fn crossings_of_rays_with_the_side_of_a_cube(rt: HostRuntime) {
    let p = spot([10, 11, 13], 4);
    for &(k, corners, want) in &RAYS {
        assert!(rt; crossing(&p, k, &triangle(corners)) == want);
    }
    assert!(rt; plane_value(&support_of(&triangle(HIGH)), &p) == -96);
}

// Through the side from within and back, beside it, and up to it.
static WAYS: [(i32, i32, [[i32; 3]; 3], i32); 4] = [
    (10, 20, HIGH, 1),
    (20, 10, HIGH, -1),
    (10, 20, LOW, 0),
    (10, 16, HIGH, 0),
];

#[test]
fn ways_through_the_side_of_a_cube(rt: HostRuntime) {
    let p = spot([10, 11, 13], 4);
    for &(from, to, corners, want) in &WAYS {
        let from = slid(&p, from);
        assert!(rt; leg(&from, &slid(&from, to), Axis::X, &triangle(corners)) == want);
    }
}

#[test]
fn a_flat_triangle_has_no_face(rt: HostRuntime) -> Result<(), Fail> {
    assert!(rt; face_of(rt.alloc(), &triangle(FLAT))?.is_none());
    Ok(())
}
