// Coplanar triangles, and which of them owns a region of their plane.
ghost use Rattle.std.specs.Prelude.{◌<◌, All, length};
ghost use Rattle.ember_model.specs.Valid.{IsValidTri};
ghost use Rattle.ember_coplanar.specs.TrianglePlane.{LiesOn};

use crate::shapes::triangle;
use ember_coplanar::{contains, is_owner, same_plane};
use ember_model::{OutOfMemory, Tri};
use ember_poly::{Ring, of_tri};
use std::alloc::Global;
use std::test::Fail;

const O: [i32; 3] = [0, 0, 0];

const X: [i32; 3] = [1, 0, 0];

const Y: [i32; 3] = [0, 1, 0];

const FAR: [i32; 3] = [4, 4, 0];

const UP: [i32; 3] = [0, 1, 1];

static TRIANGLES_OF_ONE_PLANE: [([[i32; 3]; 3], [[i32; 3]; 3], bool); 5] = [
    ([O, X, Y], [Y, X, FAR], true),
    ([O, X, Y], [O, Y, X], true),
    ([O, X, Y], [O, X, UP], false),
    ([O, X, Y], [O, X, X], false),
    ([O, X, X], [O, X, Y], false),
];

#[test]
fn triangles_of_one_plane(rt: HostRuntime) {
    for &(one, other, want) in &TRIANGLES_OF_ONE_PLANE {
        let are_coplanar = same_plane(&triangle(one), &triangle(other));
        assert!(rt; are_coplanar == want);
    }
}

// A triangle of a list is coplanar with `own`, in whose plane the ring lies: whether it contains
// the ring, and whether it owns it. None if it isn't coplanar.
fn holds_and_owns(near: &[Tri], i: u32, own: &Tri, ring: &Ring) -> Option<(bool, bool)>
    requires valid { All IsValidTri near.now }
    requires place { i < length near.now }
    requires own { IsValidTri own.now }
    requires ring { LiesOn own.now ring.now }
{
    let t = &near[i as usize];
    if same_plane(t, own) {
        Some((contains(t, ring), is_owner(near, i, ring)))
    } else {
        None
    }
}

// The same for the ring of `own`.
fn holds_and_owns_face(
    alloc: Global,
    near: &[Tri],
    i: u32,
    own: &Tri,
) -> Result<Option<(bool, bool)>, OutOfMemory>
    requires valid { All IsValidTri near.now }
    requires place { i < length near.now }
    requires own { IsValidTri own.now }
{
    match of_tri(alloc, own)? {
        Some(ring) => Ok(holds_and_owns(near, i, own, &ring)),
        None => Ok(None),
    }
}

// Nothing before the second triangle contains the third, but neither does it itself.
static OWNERS: [Option<(bool, bool)>; 4] = [
    None,
    Some((false, true)),
    Some((true, true)),
    Some((true, false)),
];

#[test]
fn the_first_that_contains_a_region_owns_it(rt: HostRuntime) -> Result<(), Fail> {
    // A triangle in the plane z = 0, with a triangle of another plane and one of another place before it, and the same
    // turned behind it.
    let own = triangle([O, X, Y]);
    let near = [
        triangle([O, X, UP]),
        triangle([O, FAR, Y]),
        own,
        triangle([Y, X, O]),
    ];
    for i in 0..4u32 {
        let found = holds_and_owns_face(rt.alloc(), &near, i, &own)?;
        assert!(rt; found == OWNERS[i as usize]);
    }
    Ok(())
}
