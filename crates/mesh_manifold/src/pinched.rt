// Edges that more than two triangles have.
//
// Which edges are cut has no contract: whatever they are, the pieces of a triangle cover it, and
// what becomes of the mesh is tested.
ghost use Rattle.std.specs.Prelude.{◌^◌, ◌<◌, length};

use crate::edge_set::EdgeSet;
use crate::edges::{HalfEdge, is_beside, sorted_edges};
use crate::split::SplitMesh;
use mesh_write::DecimalPoint;
use std::alloc::{AllocError, Global};

// The point of a vertex of the split mesh.
fn point_of(vertices: &[DecimalPoint], origins: &[usize], vertex: usize) -> Option<DecimalPoint> {
    let origin = origins.get(vertex)?;
    let point = vertices.get(*origin)?;
    Some(*point)
}

// Adds the edge of a group, if it has more than two triangles.
fn add_pinched(
    pinched: &mut EdgeSet,
    vertices: &[DecimalPoint],
    origins: &[usize],
    group: &[HalfEdge],
) -> Result<(), AllocError> {
    let [first, _, _, ..] = group else {
        return Ok(());
    };
    let Some(u) = point_of(vertices, origins, first.low) else {
        return Ok(());
    };
    let Some(v) = point_of(vertices, origins, first.high) else {
        return Ok(());
    };
    pinched.add(u, v)
}

/// The edges of a split mesh that more than two triangles have, by the points of their ends.
pub fn pinched_edges(
    alloc: Global,
    vertices: &[DecimalPoint],
    split: &SplitMesh,
) -> Result<EdgeSet, AllocError>
    requires { length split.now.triangles.items < 2 ^ 60 }
{
    let edges = sorted_edges(alloc, &split.triangles)?;
    let mut pinched = EdgeSet::new(alloc);
    for group in edges.chunk_by(|one, other| is_beside(one, other)) {
        add_pinched(&mut pinched, vertices, &split.origins, group)?;
    }
    Ok(pinched)
}
