// Edges of more than two triangles over vertices.
ghost use Rattle.std.specs.Prelude.{◌≡◌, ◌∷◌, [], nat_lt, not, IfOk, OnOk};
ghost use Rattle.mesh_written.specs.Noting.{NotesEdges};
ghost use Rattle.mesh_written.specs.Closed.{indices_of, AreIndicesClosed};
ghost use Rattle.mesh_written.specs.Shared.{index_edge, same_edge, has_key, with_key, rising, rising_edges, IsSharedIndexCount};

use indexmap::IndexSet;
use mesh_write::IndexedTriangle;
use std::alloc::{AllocError, Global};

// A directed edge, by the indices of its ends.
#[derive(Clone, Copy, PartialEq, Eq, Hash)]
struct IndexEdge {
    from: usize,
    to: usize,
}

// The edges that were looked at: each of them once, and those that occurred again.
#[derive(Drop)]
struct IndexEdges {
    once: IndexSet<IndexEdge>,
    again: IndexSet<IndexEdge>,
}

// Puts the edge into the set, and returns whether it is new there.
fn put(set: &mut IndexSet<IndexEdge>, edge: IndexEdge) -> Result<bool, AllocError>
    ensures keys { OnOk result (set.new.keys ≡ with_key same_edge set.old.keys edge) }
    ensures is_new { IfOk result (λ is_new. is_new ≡ not (has_key same_edge set.old.keys edge)) }
{
    let is_new = set.insert(edge)?;
    Ok(is_new)
}

impl IndexEdges {
    fn new(alloc: Global) -> IndexEdges
        ensures once { result.once.keys ≡ [] }
        ensures again { result.again.keys ≡ [] }
    {
        IndexEdges {
            once: IndexSet::new(alloc),
            again: IndexSet::new(alloc),
        }
    }

    // Notes an edge that occurs again.
    fn add_again(&mut self, edge: IndexEdge) -> Result<(), AllocError>
        ensures once { OnOk result (self.new.once.keys ≡ self.old.once.keys) }
        ensures again { OnOk result (self.new.again.keys ≡ with_key same_edge self.old.again.keys edge) }
    {
        put(&mut self.again, edge)?;
        Ok(())
    }

    // Notes an edge.
    fn add(&mut self, edge: IndexEdge) -> Result<(), AllocError>
        ensures { OnOk result (NotesEdges (edge ∷ []) self.old self.new) }
    {
        let is_new = put(&mut self.once, edge)?;
        if is_new {
            return Ok(());
        }
        self.add_again(edge)
    }

    // Notes an edge if its start comes before its end.
    fn add_rising(&mut self, from: usize, to: usize) -> Result<(), AllocError>
        ensures { OnOk result (NotesEdges (rising nat_lt index_edge from to) self.old self.new) }
    {
        if from < to {
            return self.add(IndexEdge { from, to });
        }
        Ok(())
    }

    // Notes those edges of the triangle whose start comes before their end.
    fn add_triangle(&mut self, t: &IndexedTriangle) -> Result<(), AllocError>
        ensures { OnOk result
            (NotesEdges (rising_edges nat_lt index_edge (indices_of t.now ∷ [])) self.old self.new) }
    {
        self.add_rising(t.a, t.b)?;
        self.add_rising(t.b, t.c)?;
        self.add_rising(t.c, t.a)
    }
}

/// How many edges belong to more than two of the triangles over vertices, which are closed. In a
/// closed mesh such an edge occurs more than once in each direction, so only one of its two
/// directions is looked at.
pub fn shared_edges_by_index(
    alloc: Global,
    triangles: &[IndexedTriangle],
) -> Result<u64, AllocError>
    ensures { IfOk result (λ count. AreIndicesClosed triangles.now → IsSharedIndexCount triangles.now count) }
{
    let mut edges = IndexEdges::new(alloc);
    for t in triangles {
        edges.add_triangle(t)?;
    }
    Ok(edges.again.len() as u64)
}
