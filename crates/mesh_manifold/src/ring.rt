// The triangles at an edge, and which of them have solid between them.
ghost use Rattle.mesh_manifold.specs.Turns.{IsNormal};

use crate::classes::join;
use crate::edge_triangle::EdgeTriangle;
use crate::edge_triangles::insert;
use crate::edges::HalfEdge;
use crate::turns::{Normal, normal_of, opposite};
use ember_model::Plane;
use mesh_write::DecimalPoint;
use std::alloc::{AllocError, Global};

// The normal of a triangle as if its edge led forward.
fn facing(normal: Normal, is_back: bool) -> Normal
    requires { IsNormal normal }
    ensures { IsNormal result }
{
    if is_back { opposite(&normal) } else { normal }
}

// The triangle of an edge, by its plane.
fn triangle_of(planes: &[Plane], numbers: &[u32], edge: &HalfEdge) -> Option<EdgeTriangle> {
    let number = *numbers.get(edge.corner / 3)?;
    let normal = normal_of(planes.get(number as usize)?)?;
    Some(EdgeTriangle {
        normal: facing(normal, edge.is_back),
        is_back: edge.is_back,
        corner: edge.corner,
    })
}

// The triangles of the edges between u and v, counter-clockwise round the edge from u to v. An edge
// without a plane has none.
fn ring_of(
    alloc: Global,
    planes: &[Plane],
    numbers: &[u32],
    u: &DecimalPoint,
    v: &DecimalPoint,
    edges: &[HalfEdge],
) -> Result<Vec<EdgeTriangle>, AllocError> {
    let mut triangles = Vec::with_capacity(alloc, edges.len())?;
    let mut first = None;
    for edge in edges {
        if let Some(triangle) = triangle_of(planes, numbers, edge) {
            let begin = first.unwrap_or(triangle);
            first = Some(begin);
            insert(u, v, &begin, &mut triangles, triangle)?;
        }
    }
    Ok(triangles)
}

// The corner at which the edge ends that starts at this corner.
fn next_corner(corner: usize) -> usize {
    if corner % 3 == 2 {
        corner - 2
    } else {
        corner.saturating_add(1)
    }
}

/// Joins the corners of two triangles along an edge: the start of each with the end of the other.
pub fn join_along(parents: &mut [usize], one: usize, other: usize) {
    join(parents, one, next_corner(other));
    join(parents, next_corner(one), other);
}

/// Joins the triangles with edges between u and v between which solid lies. On the way round, solid
/// follows a triangle whose edge leads back and ends at one whose edge leads forward; so these
/// match like brackets, and the way has no beginning.
pub fn join_ring(
    alloc: Global,
    planes: &[Plane],
    numbers: &[u32],
    u: &DecimalPoint,
    v: &DecimalPoint,
    edges: &[HalfEdge],
    parents: &mut [usize],
) -> Result<(), AllocError> {
    let triangles = ring_of(alloc, planes, numbers, u, v, edges)?;
    let mut open = Vec::new(alloc);
    let mut left = Vec::new(alloc);
    for triangle in &triangles {
        if triangle.is_back {
            open.push(triangle.corner)?;
        } else if let Some(corner) = open.pop() {
            join_along(parents, triangle.corner, corner);
        } else {
            left.push(triangle.corner)?;
        }
    }
    // These come before all brackets that are still open.
    for corner in &left {
        if let Some(other) = open.pop() {
            join_along(parents, *corner, other);
        }
    }
    Ok(())
}
