// Edges by the points of their ends.
ghost use Rattle.std.specs.Prelude.{◌≡◌, [], OnOk};
ghost use Rattle.mesh_manifold.specs.Cuts.{with_edge, is_among};

use indexmap::IndexSet;
use mesh_write::DecimalPoint;
use std::alloc::{AllocError, Global};

/// An edge from one point to another.
#[derive(Clone, Copy, Debug, PartialEq, Eq, Hash)]
pub struct PointEdge {
    pub from: DecimalPoint,
    pub to: DecimalPoint,
}

/// Edges, each in both directions.
#[derive(Drop)]
pub struct EdgeSet {
    edges: IndexSet<PointEdge>,
}

impl EdgeSet {
    /// No edges.
    pub fn new(alloc: Global) -> EdgeSet
        ensures { result.edges.keys ≡ [] }
    {
        EdgeSet {
            edges: IndexSet::new(alloc),
        }
    }

    /// Adds the edge between two points, unless it is there.
    pub fn add(&mut self, u: DecimalPoint, v: DecimalPoint) -> Result<(), AllocError>
        ensures { OnOk result (self.new.edges.keys ≡
            with_edge (with_edge self.old.edges.keys (record { from = u; to = v })) (record { from = v; to = u })) }
    {
        self.edges.insert(PointEdge { from: u, to: v })?;
        self.edges.insert(PointEdge { from: v, to: u })?;
        Ok(())
    }

    /// Whether there is an edge from u to v.
    pub fn has(&self, u: &DecimalPoint, v: &DecimalPoint) -> bool
        ensures { result ≡ is_among self.now.edges.keys u.now v.now }
    {
        self.edges.contains(&PointEdge { from: *u, to: *v })
    }
}
