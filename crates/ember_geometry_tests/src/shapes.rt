// Corners, triangles, planes and points of the tests.
ghost use Rattle.std.specs.Prelude.{◌≡◌, ◌<◌};
ghost use Rattle.ember_model.specs.Limits.{narrow_limit};
ghost use Rattle.ember_algebra.specs.Size.{Small};
ghost use Rattle.ember_model.specs.declared.point.Axis.TheVariants.{X};
ghost use Rattle.ember_model.specs.Points.{DifferAlong};
ghost use Rattle.ember_model.specs.Valid.{IsValidCorner, IsValidPlane, IsValidSpot, IsValidTri};

use ember_model::{Corner, Plane, Spot, Tri};
use ember_point::{Meet, reduce};

// The coordinate, or 0 in place of one that no corner has.
fn coordinate(x: i32) -> i32
    ensures { Small narrow_limit result }
{
    if x > 2047 || x < -2047 { 0 } else { x }
}

/// The corner with these coordinates, each at most 2047 in size.
pub fn corner(at: [i32; 3]) -> Corner
    ensures { IsValidCorner result }
{
    Corner {
        x: coordinate(at[0]),
        y: coordinate(at[1]),
        z: coordinate(at[2]),
    }
}

/// The triangle of mesh 1 with these corners.
pub fn triangle(corners: [[i32; 3]; 3]) -> Tri
    ensures { IsValidTri result }
{
    Tri {
        a: corner(corners[0]),
        b: corner(corners[1]),
        c: corner(corners[2]),
        mesh: 1,
    }
}

/// The triangles of the tetrahedron with the corners 0 and the unit points, outward.
pub fn tetra(i: usize) -> Tri
    ensures { IsValidTri result }
{
    let [o, x, y, z] = [[0, 0, 0], [1, 0, 0], [0, 1, 0], [0, 0, 1]];
    let corners = match i {
        0 => [o, y, x],
        1 => [o, x, z],
        2 => [o, z, y],
        _ => [x, y, z],
    };
    triangle(corners)
}

/// The plane with this normal and constant.
pub fn plane(numbers: [i16; 4]) -> Plane
    ensures { IsValidPlane result }
{
    Plane {
        a: i64::from(numbers[0]),
        b: i64::from(numbers[1]),
        c: i64::from(numbers[2]),
        d: i64::from(numbers[3]),
    }
}

/// The point with these coordinates, each divided by `w`.
pub fn spot(at: [i32; 3], w: u32) -> Spot
    requires { 0 < w }
    ensures { IsValidSpot result }
{
    Spot {
        x: i64::from(at[0]),
        y: i64::from(at[1]),
        z: i64::from(at[2]),
        w: i64::from(w),
    }
}

/// The point with another x.
pub fn slid(p: &Spot, x: i32) -> Spot
    requires { IsValidSpot p.now }
    ensures line { DifferAlong X p.now result }
    ensures back { DifferAlong X result p.now }
    ensures valid { IsValidSpot result }
{
    Spot {
        x: i64::from(x),
        y: p.y,
        z: p.z,
        w: p.w,
    }
}

/// The point is that one, whose coordinates come before their divisor, and are in lowest terms.
pub fn is_at(m: &Meet, at: [i128; 4]) -> bool {
    let m = reduce(m);
    [m.x, m.y, m.z, m.w] == at
}
