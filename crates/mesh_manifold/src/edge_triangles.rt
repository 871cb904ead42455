// The triangles at an edge, in their order round it.
ghost use Rattle.std.specs.Prelude.{◌≡◌, ◌+◌, ◌≤◌, length, OnOk};
ghost use Rattle.mesh_manifold.specs.EdgeTriangles.{is_in_second_half, is_before};

use crate::edge_triangle::EdgeTriangle;
use crate::turns::{inner, turn};
use mesh_write::DecimalPoint;
use std::alloc::AllocError;
use std::cmp::Ordering;

// Whether the triangle is half a turn or more from the first one, counter-clockwise.
fn is_in_second_half(
    u: &DecimalPoint,
    v: &DecimalPoint,
    first: &EdgeTriangle,
    triangle: &EdgeTriangle,
) -> bool
    ensures { result ≡ is_in_second_half u.now v.now first.now triangle.now }
{
    match turn(u, v, &first.normal, &triangle.normal) {
        Ordering::Greater => false,
        Ordering::Less => true,
        Ordering::Equal => inner(&first.normal, &triangle.normal) < 0,
    }
}

// Whether a triangle comes before another on the way round, which begins at the first one. Of two
// at the same place, the one whose edge leads back comes first.
fn is_before(
    u: &DecimalPoint,
    v: &DecimalPoint,
    first: &EdgeTriangle,
    one: &EdgeTriangle,
    other: &EdgeTriangle,
) -> bool
    ensures { result ≡ is_before u.now v.now first.now one.now other.now }
{
    let late = is_in_second_half(u, v, first, one);
    if late != is_in_second_half(u, v, first, other) {
        return !late;
    }
    match turn(u, v, &one.normal, &other.normal) {
        Ordering::Greater => true,
        Ordering::Less => false,
        Ordering::Equal => one.is_back && !other.is_back,
    }
}

// Where the triangle belongs among triangles in order.
fn place_of(
    u: &DecimalPoint,
    v: &DecimalPoint,
    first: &EdgeTriangle,
    triangles: &[EdgeTriangle],
    triangle: &EdgeTriangle,
) -> usize
    ensures { result ≤ length triangles.now }
{
    for (place, other) in triangles.iter().enumerate() {
        if is_before(u, v, first, triangle, other) {
            return place;
        }
    }
    triangles.len()
}

/// Puts a triangle among triangles in order.
pub fn insert(
    u: &DecimalPoint,
    v: &DecimalPoint,
    first: &EdgeTriangle,
    triangles: &mut Vec<EdgeTriangle>,
    triangle: EdgeTriangle,
) -> Result<(), AllocError>
    ensures { OnOk result (length triangles.new.items ≡ length triangles.old.items + 1) }
{
    let place = place_of(u, v, first, triangles, &triangle);
    triangles.insert(place, triangle)?;
    Ok(())
}
