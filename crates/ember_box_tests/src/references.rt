// Signs at reference points, and a vector carried into a cube.
ghost use Rattle.std.specs.Prelude.{◌<◌, ◌≤◌, length, All};
ghost use Rattle.ember_model.specs.Limits.{most_triangles};
ghost use Rattle.ember_model.specs.declared.point.Axis as axis;

use crate::scenes::{first_counts, scene_of_files};
use crate::texts::C;
use ember_algebra::Sign;
use ember_box::{Cell, halves, root};
use ember_model::{Axis, Plane, Scene, Vector};
use ember_ref::{lex_side, shift, shift_listed_on};
use ember_width::Narrow;
use std::test::Fail;

const DIAGONAL: Plane = Plane {
    a: 1,
    b: -1,
    c: 0,
    d: 0,
};

const LEVEL: Plane = Plane {
    a: 0,
    b: 0,
    c: -1,
    d: 5,
};

const BEYOND: Plane = Plane {
    a: 1,
    b: 1,
    c: 1,
    d: 1,
};

#[test]
fn signs_beside_a_corner(rt: HostRuntime) {
    assert!(rt; lex_side(&DIAGONAL, [0, 0, 0]) == Sign::Pos);
    assert!(rt; lex_side(&LEVEL, [0, 0, 5]) == Sign::Neg);
    assert!(rt; lex_side(&BEYOND, [0, 0, 0]) == Sign::Neg);
}

// The quarter of the root box in which x and y are at least 0.
fn quarter() -> Cell
    ensures { 0 < result.log Axis.Z }
{
    let (_, right) = halves(&root(), Axis::X);
    halves(&right, Axis::Y).1
}

// The counts carried to the upper half along z, from none, by all triangles.
fn carried(s: &Scene, c: &Cell) -> [i32; 3]
    requires { 0 < c.now.log Axis.Z }
{
    let mut v = Vector { counts: [0; 64] };
    shift(s.tris.items(), c, Axis::Z, &mut v);
    first_counts(&v)
}

// The same by some of the triangles.
fn carried_by(s: &Scene, list: &[u32], c: &Cell) -> [i32; 3]
    requires places { All (λ i. i < length s.now.tris) list.now }
    requires few { length list.now ≤ most_triangles }
    requires side { 0 < c.now.log Axis.Z }
{
    let mut v = Vector { counts: [0; 64] };
    shift_listed_on::<Narrow>(s.tris.items(), list, c, Axis::Z, &mut v);
    first_counts(&v)
}

#[test]
fn into_a_cube_along_z(rt: HostRuntime) -> Result<(), Fail> {
    let scene = scene_of_files(rt.alloc(), &[C])?;
    let c = quarter();
    assert!(rt; (c.path(), c.lo()) == (7, [0, 0, -2048]));
    assert!(rt; carried(&scene, &c) == [1, 0, 0]);
    // The bottom alone is passed.
    assert!(rt; scene.tris.items().len() == 12);
    assert!(rt; carried_by(&scene, &[0, 1], &c) == [1, 0, 0]);
    assert!(rt; carried_by(&scene, &[2, 3], &c) == [0, 0, 0]);
    Ok(())
}
