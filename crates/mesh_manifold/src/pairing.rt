// Triangles that are joined along edges.
use crate::edges::{HalfEdge, is_beside};
use crate::ring::{join_along, join_ring};
use ember_model::Plane;
use mesh_write::DecimalPoint;
use std::alloc::{AllocError, Global};

// Joins the triangles with edges between two vertices.
fn join_group(
    alloc: Global,
    planes: &[Plane],
    numbers: &[u32],
    vertices: &[DecimalPoint],
    group: &[HalfEdge],
    parents: &mut [usize],
) -> Result<(), AllocError> {
    let Some((first, others)) = group.split_first() else {
        return Ok(());
    };
    if let [other] = others {
        if first.is_back != other.is_back {
            join_along(parents, first.corner, other.corner);
            return Ok(());
        }
    }
    let (Some(u), Some(v)) = (vertices.get(first.low), vertices.get(first.high)) else {
        return Ok(());
    };
    join_ring(alloc, planes, numbers, u, v, group, parents)
}

/// Joins triangles along each edge that they have in common. If more than two have it, those are
/// joined between which solid lies. The edges between the same two vertices are together.
pub fn join_all(
    alloc: Global,
    planes: &[Plane],
    numbers: &[u32],
    vertices: &[DecimalPoint],
    edges: &[HalfEdge],
    parents: &mut [usize],
) -> Result<(), AllocError> {
    for group in edges.chunk_by(|one, other| is_beside(one, other)) {
        join_group(alloc, planes, numbers, vertices, group, parents)?;
    }
    Ok(())
}
