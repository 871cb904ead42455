// A list of items in which a search passes over those that are far away.
ghost use Rattle.std.specs.Prelude.{◌≡◌, ◌↔◌, ◌≤◌, [], ◌∷◌, ◌++◌, All, IfOk, IsTrue};
ghost use Rattle.ember_model.specs.Valid.{IsValidPlane};
ghost use Rattle.mesh_sources.specs.Nodes.{AreBoundsWithin, AreBoundsOf, AreBoundsOver, HaveCommonBounds, HasItsMark};
ghost use Rattle.mesh_sources.specs.Nodes.{AreBoundsFrom, AreNodes, items_in};

use crate::boxes::{box_around, box_over};
use crate::facet::Facet;
use crate::items::Item;
use crate::mark::mark_of;
use crate::spans::{SpaceBox, Span};
use ember_model::OutOfMemory;
use std::alloc::Global;

/// Marks of planes, and a box.
#[derive(Clone, Copy)]
pub struct Bounds {
    pub mark: Span,
    pub around: SpaceBox,
}

impl Bounds {
    /// Whether both have a mark and a point in common.
    pub fn meets(&self, other: &Bounds) -> bool
        ensures { IsTrue result ↔ HaveCommonBounds self.now other.now }
    {
        self.mark.meets(&other.mark) && self.around.meets(&other.around)
    }

    fn joined(&self, other: &Bounds) -> Bounds
        ensures one { AreBoundsWithin self.now result }
        ensures other { AreBoundsWithin other.now result }
    {
        Bounds {
            mark: self.mark.joined(&other.mark),
            around: self.around.joined(&other.around),
        }
    }
}

fn bounds_of(item: &Item) -> Bounds
    requires { HasItsMark item.now }
    ensures { AreBoundsOf result item.now.tri }
{
    Bounds {
        mark: Span {
            low: item.mark,
            high: item.mark,
        },
        around: box_around(&item.tri),
    }
}

/// The mark of the facet's plane, and the box around the facet.
pub fn bounds_over(facet: &Facet) -> Bounds
    requires { IsValidPlane facet.now.plane }
    ensures { AreBoundsOver result facet.now }
{
    let mark = mark_of(&facet.plane);
    Bounds {
        mark: Span {
            low: mark,
            high: mark,
        },
        around: box_over(&facet.corners),
    }
}

/// An item, and the bounds of all items from the node at `start` to this one.
#[derive(Clone, Copy)]
pub struct Node {
    pub item: Item,
    pub start: usize,
    pub bounds: Bounds,
}

// Where the bounds of the node at an index start: for 2^k m - 1 with an odd m it is 2^k (m - 1), so
// that a search that passes over what is far takes few steps.
fn start_of(index: usize) -> usize
    ensures { result ≤ index }
{
    index & index.wrapping_add(1)
}

// The bounds joined with those of all nodes from `start` on.
fn joined_from(nodes: &[Node], start: usize, own: Bounds) -> Bounds
    requires nodes { AreNodes nodes.now }
    ensures own { AreBoundsWithin own result }
    ensures nodes { AreBoundsFrom nodes.now start result }
{
    let mut bounds = own;
    let mut end = nodes.len();
    while start < end {
        let node = &nodes[end - 1];
        bounds = bounds.joined(&node.bounds);
        end = node.start;
    }
    bounds
}

fn node_of(nodes: &[Node], item: &Item) -> Node
    requires nodes { AreNodes nodes.now }
    requires mark { HasItsMark item.now }
    ensures item { result.item ≡ item.now }
    ensures nodes { AreNodes (nodes.now ++ result ∷ []) }
{
    let start = start_of(nodes.len());
    Node {
        item: *item,
        start,
        bounds: joined_from(nodes, start, bounds_of(item)),
    }
}

/// The nodes of the items, in their order.
pub fn nodes_of(alloc: Global, items: &[Item]) -> Result<Vec<Node>, OutOfMemory>
    requires { All HasItsMark items.now }
    ensures nodes { IfOk result (λ nodes. AreNodes nodes.items) }
    ensures items { IfOk result (λ nodes. items_in nodes.items ≡ items.now) }
{
    let mut nodes = Vec::with_capacity(alloc, items.len())?;
    for item in items {
        let node = node_of(&nodes, item);
        nodes.push(node)?;
    }
    Ok(nodes)
}
