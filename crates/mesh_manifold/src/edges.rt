// The edges of triangles.
ghost use Rattle.std.specs.Prelude.{◌≡◌, ◌+◌, ◌*◌, ◌^◌, ◌<◌, ◌++◌, length, IfOk, OnOk, IsPermutation};
ghost use Rattle.mesh_manifold.specs.Edges.{half_edge, is_beside, edges_of, edges_from};

use mesh_write::IndexedTriangle;
use std::alloc::{AllocError, Global};

/// An edge of a triangle. The corner at which it starts has three times the index of its triangle
/// as its number, and 0, 1 or 2 more.
#[derive(Clone, Copy, Debug, PartialEq, Eq, PartialOrd, Ord)]
pub struct HalfEdge {
    /// The lower one of its two vertices.
    pub low: usize,
    pub high: usize,
    /// Whether it leads from the higher vertex to the lower one.
    pub is_back: bool,
    pub corner: usize,
}

fn half_edge(from: usize, to: usize, corner: usize) -> HalfEdge
    ensures { result ≡ half_edge from to corner }
{
    if from < to {
        HalfEdge {
            low: from,
            high: to,
            is_back: false,
            corner,
        }
    } else {
        HalfEdge {
            low: to,
            high: from,
            is_back: true,
            corner,
        }
    }
}

/// Whether both edges are between the same two vertices.
pub fn is_beside(one: &HalfEdge, other: &HalfEdge) -> bool
    ensures { result ≡ is_beside one.now other.now }
{
    one.low == other.low && one.high == other.high
}

fn push_edges(
    edges: &mut Vec<HalfEdge>,
    triangle: &IndexedTriangle,
    first: usize,
) -> Result<(), AllocError>
    requires { first + 2 < 2 ^ 64 }
    ensures { OnOk result (edges.new.items ≡ edges.old.items ++ edges_of first triangle.now) }
{
    edges.push(half_edge(triangle.a, triangle.b, first))?;
    edges.push(half_edge(triangle.b, triangle.c, first + 1))?;
    edges.push(half_edge(triangle.c, triangle.a, first + 2))?;
    Ok(())
}

fn all_edges(alloc: Global, triangles: &[IndexedTriangle]) -> Result<Vec<HalfEdge>, AllocError>
    requires { length triangles.now < 2 ^ 60 }
    ensures { IfOk result (λ edges. edges.items ≡ edges_from 0 triangles.now) }
{
    let mut edges = Vec::with_capacity(alloc, 3 * triangles.len())?;
    for (index, triangle) in triangles.iter().enumerate() {
        push_edges(&mut edges, triangle, 3 * index)?;
    }
    Ok(edges)
}

/// The edges of the triangles, three for each. Those between the same two vertices are together; of
/// these, those that lead from the lower vertex to the higher one come first.
pub fn sorted_edges(
    alloc: Global,
    triangles: &[IndexedTriangle],
) -> Result<Vec<HalfEdge>, AllocError>
    requires { length triangles.now < 2 ^ 60 }
    ensures { IfOk result (λ edges. IsPermutation (edges_from 0 triangles.now) edges.items) }
{
    let mut edges = all_edges(alloc, triangles)?;
    edges.sort_unstable();
    Ok(edges)
}
