// The edges of triangles over vertices: how many are loose, and how many belong to more than two
// triangles.
ghost use Rattle.std.specs.Prelude.{◌≡◌, ◌<◌, ◌+◌, ◌-◌, ◌^◌, ◌++◌, ◌∷◌, [], map, length, slice_index_or, slice_set, replicate, sum_by, count_by, IfOk, OnOk};
ghost use Rattle.mesh_info.specs.Info.Edges.{side_between, sides_in, sides_of, edges_of, uses_of, with_use, surplus, is_crowded, loose_edges, shared_edges};

use indexmap::IndexSet;
use mesh_write::IndexedTriangle;
use std::alloc::{AllocError, Global};

// An edge between two vertices, by their indices, of which the first is the lower one.
#[derive(Clone, Copy, PartialEq, Eq, Hash)]
struct Edge {
    low: usize,
    high: usize,
}

// An edge as the side of a triangle, which runs along it in one of two directions.
#[derive(Clone, Copy, PartialEq, Eq)]
struct Side {
    edge: Edge,
    /// Whether it runs from the lower vertex to the higher one.
    rises: bool,
}

// How many sides run along an edge in each direction.
#[derive(Clone, Copy, PartialEq, Eq)]
struct Uses {
    up: u64,
    down: u64,
}

/// What is counted of the edges.
#[derive(Clone, Copy, Debug, PartialEq, Eq)]
pub(crate) struct EdgeCounts {
    pub loose: u128,
    pub shared: u64,
}

// The side from one vertex to another, unless they are one.
fn push_side(sides: &mut Vec<Side>, from: usize, to: usize) -> Result<(), AllocError>
    ensures { OnOk result (sides.new.items ≡ sides.old.items ++ side_between from to) }
{
    if from == to {
        return Ok(());
    }
    let rises = from < to;
    let (low, high) = if rises { (from, to) } else { (to, from) };
    sides.push(Side {
        edge: Edge { low, high },
        rises,
    })?;
    Ok(())
}

fn push_sides(sides: &mut Vec<Side>, t: &IndexedTriangle) -> Result<(), AllocError>
    ensures { OnOk result (sides.new.items ≡ sides.old.items ++ sides_in t.now) }
{
    push_side(sides, t.a, t.b)?;
    push_side(sides, t.b, t.c)?;
    push_side(sides, t.c, t.a)
}

fn sides_of(alloc: Global, triangles: &[IndexedTriangle]) -> Result<Vec<Side>, AllocError>
    ensures { IfOk result (λ sides. sides.items ≡ sides_of triangles.now) }
{
    let mut sides = Vec::new(alloc);
    for t in triangles {
        push_sides(&mut sides, t)?;
    }
    Ok(sides)
}

// The edges of the sides, each once.
#[tactic(auto, unfolding(crate::specs::Info::Edges::edges_of))]
fn edges_of(alloc: Global, sides: &[Side]) -> Result<IndexSet<Edge>, AllocError>
    ensures { IfOk result (λ edges. edges.keys ≡ edges_of sides.now) }
{
    let mut edges = IndexSet::new(alloc);
    for side in sides {
        edges.insert(side.edge)?;
    }
    Ok(edges)
}

// Counts a side along the edge with this number.
fn add_use(uses: &mut [Uses], number: usize, rises: bool)
    requires there { number < length uses.old }
    requires up { (slice_index_or uses.old number (record { up = 0; down = 0 })).up < 2 ^ 64 - 1 }
    requires down { (slice_index_or uses.old number (record { up = 0; down = 0 })).down < 2 ^ 64 - 1 }
    ensures { uses.new ≡ slice_set uses.old number
        (with_use rises (slice_index_or uses.old number (record { up = 0; down = 0 }))) }
{
    if rises {
        uses[number].up += 1;
    } else {
        uses[number].down += 1;
    }
}

// So many edges without sides.
fn no_uses(alloc: Global, edges: usize) -> Result<Vec<Uses>, AllocError>
    ensures { IfOk result (λ uses. uses.items ≡ replicate edges (record { up = 0; down = 0 })) }
{
    let mut uses = Vec::with_capacity(alloc, edges)?;
    for _edge in 0..edges {
        uses.push(Uses { up: 0, down: 0 })?;
    }
    Ok(uses)
}

// Counts all sides.
fn add_sides(edges: &IndexSet<Edge>, sides: &[Side], uses: &mut [Uses])
    requires { uses.old ≡ replicate (length edges.now.keys) (record { up = 0; down = 0 }) }
    ensures { edges.now.keys ≡ edges_of sides.now → uses.new ≡ uses_of sides.now }
{
    for side in sides {
        match edges.get_index_of(&side.edge) {
            Some(number) => add_use(uses, number, side.rises),
            None => {}
        }
    }
}

// How many sides run along each edge.
fn uses_of(alloc: Global, sides: &[Side]) -> Result<Vec<Uses>, AllocError>
    ensures { IfOk result (λ uses. uses.items ≡ uses_of sides.now) }
{
    let edges = edges_of(alloc, sides)?;
    let mut uses = no_uses(alloc, edges.len())?;
    add_sides(&edges, sides, &mut uses);
    Ok(uses)
}

impl Uses {
    // By how much one direction is used more often than the other.
    fn surplus(&self) -> u64
        ensures { result ≡ surplus self.now }
    {
        self.up.abs_diff(self.down)
    }

    // Whether more than two sides run along the edge.
    fn is_crowded(&self) -> bool
        ensures { result ≡ is_crowded self.now }
    {
        u128::from(self.up) + u128::from(self.down) > 2
    }
}

fn loose_in(uses: &[Uses]) -> u128
    ensures { result ≡ sum_by surplus uses.now }
{
    let mut loose = 0;
    for edge in uses {
        loose += u128::from(edge.surplus());
    }
    loose
}

fn shared_in(uses: &[Uses]) -> u64
    ensures { result ≡ count_by is_crowded uses.now }
{
    let mut shared = 0;
    for edge in uses {
        if edge.is_crowded() {
            shared += 1;
        }
    }
    shared
}

// How many edges of the triangles are loose, and how many belong to more than two of them.
pub(crate) fn count_edges(
    alloc: Global,
    triangles: &[IndexedTriangle],
) -> Result<EdgeCounts, AllocError>
    ensures loose { IfOk result (λ counts. counts.loose ≡ loose_edges triangles.now) }
    ensures shared { IfOk result (λ counts. counts.shared ≡ shared_edges triangles.now) }
{
    let sides = sides_of(alloc, triangles)?;
    let uses = uses_of(alloc, &sides)?;
    Ok(EdgeCounts {
        loose: loose_in(&uses),
        shared: shared_in(&uses),
    })
}
