// Edges of more than two triangles.
ghost use Rattle.std.specs.Prelude.{◌≡◌, ◌∷◌, [], not, IfOk, OnOk};
ghost use Rattle.mesh_written.specs.Noting.{NotesKeys};
ghost use Rattle.mesh_written.specs.Closed.{positions_of, AreWrittenClosed};
ghost use Rattle.mesh_written.specs.Shared.{is_lower, key_between, same_ends, has_key, with_key, rising, rising_edges, IsSharedCount};

use indexmap::IndexSet;
use mesh_write::{FloatPoint, FloatTriangle};
use std::alloc::{AllocError, Global};

// A directed edge, by the bits of the coordinates of its ends.
#[derive(Clone, Copy, PartialEq, Eq, Hash)]
struct EdgeKey {
    from_x: u32,
    from_y: u32,
    from_z: u32,
    to_x: u32,
    to_y: u32,
    to_z: u32,
}

// The edges that were looked at: each of them once, and those that occurred again.
#[derive(Drop)]
struct Edges {
    once: IndexSet<EdgeKey>,
    again: IndexSet<EdgeKey>,
}

// Whether the first point comes before the second by the bits of x, of y and of z.
fn is_lower(p: &FloatPoint, q: &FloatPoint) -> bool
    ensures { result ≡ is_lower p.now q.now }
{
    p.x < q.x || (p.x == q.x && (p.y < q.y || (p.y == q.y && p.z < q.z)))
}

fn key_between(from: &FloatPoint, to: &FloatPoint) -> EdgeKey
    ensures { result ≡ key_between from.now to.now }
{
    EdgeKey {
        from_x: from.x,
        from_y: from.y,
        from_z: from.z,
        to_x: to.x,
        to_y: to.y,
        to_z: to.z,
    }
}

// Puts the key into the set, and returns whether it is new there.
fn put(set: &mut IndexSet<EdgeKey>, key: EdgeKey) -> Result<bool, AllocError>
    ensures keys { OnOk result (set.new.keys ≡ with_key same_ends set.old.keys key) }
    ensures is_new { IfOk result (λ is_new. is_new ≡ not (has_key same_ends set.old.keys key)) }
{
    let is_new = set.insert(key)?;
    Ok(is_new)
}

impl Edges {
    fn new(alloc: Global) -> Edges
        ensures once { result.once.keys ≡ [] }
        ensures again { result.again.keys ≡ [] }
    {
        Edges {
            once: IndexSet::new(alloc),
            again: IndexSet::new(alloc),
        }
    }

    // Notes an edge that occurs again.
    fn add_again(&mut self, key: EdgeKey) -> Result<(), AllocError>
        ensures once { OnOk result (self.new.once.keys ≡ self.old.once.keys) }
        ensures again { OnOk result (self.new.again.keys ≡ with_key same_ends self.old.again.keys key) }
    {
        put(&mut self.again, key)?;
        Ok(())
    }

    // Notes an edge.
    fn add(&mut self, key: EdgeKey) -> Result<(), AllocError>
        ensures { OnOk result (NotesKeys (key ∷ []) self.old self.new) }
    {
        let is_new = put(&mut self.once, key)?;
        if is_new {
            return Ok(());
        }
        self.add_again(key)
    }

    // Notes an edge if its start comes before its end.
    fn add_rising(&mut self, from: &FloatPoint, to: &FloatPoint) -> Result<(), AllocError>
        ensures { OnOk result (NotesKeys (rising is_lower key_between from.now to.now) self.old self.new) }
    {
        if is_lower(from, to) {
            return self.add(key_between(from, to));
        }
        Ok(())
    }

    // Notes those edges of the triangle whose start comes before their end.
    fn add_triangle(&mut self, t: &FloatTriangle) -> Result<(), AllocError>
        ensures { OnOk result
            (NotesKeys (rising_edges is_lower key_between (positions_of t.now ∷ [])) self.old self.new) }
    {
        self.add_rising(&t.a, &t.b)?;
        self.add_rising(&t.b, &t.c)?;
        self.add_rising(&t.c, &t.a)
    }
}

/// How many edges belong to more than two of the written triangles, which are closed. In a closed
/// mesh such an edge occurs more than once in each direction, so only one of its two directions is
/// looked at.
pub fn shared_edges(alloc: Global, written: &[FloatTriangle]) -> Result<u64, AllocError>
    ensures { IfOk result (λ count. AreWrittenClosed written.now → IsSharedCount written.now count) }
{
    let mut edges = Edges::new(alloc);
    for t in written {
        edges.add_triangle(t)?;
    }
    Ok(edges.again.len() as u64)
}
