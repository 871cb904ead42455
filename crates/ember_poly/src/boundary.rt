// The sides of a ring.
ghost use Rattle.std.specs.Prelude.{◌≡◌, ◌≤◌, ◌<◌, length, map, IfOk, OnOk};
ghost use Rattle.ember_model.specs.Within.{IsTriWithin};
ghost use Rattle.ember_poly.specs.Rings.{closing_side};
ghost use Rattle.ember_poly.specs.Boundaries.{tri_corners, sides, rotated, replace_between, with_start_at, HasEqualLengths, IsPartOfBoundary, IsRotated, LeastFirst};

use crate::passage::Passage;
use ember_model::{OutOfMemory, Plane, Tri};
use ember_width::Width;
use std::alloc::{AllocError, Global};

/// The sides of a ring, in order around the face: for each edge that counts its plane, the corner
/// at which it starts, and the index of its plane among all planes of the face.
#[derive(Drop)]
pub struct Boundary<W: Width> {
    pub edges: Vec<Plane>,
    pub corners: Vec<W::Point>,
    pub plane_indices: Vec<usize>,
}

// The side that a plane adds to a ring.
#[derive(Drop)]
struct ClosingSide<W: Width> {
    plane: Plane,
    corner: W::Point,
    plane_index: usize,
}

// Puts an item into a list, in place of the items with the indices `from` to `to - 1`.
fn replace_between<T: Copy>(
    items: &mut Vec<T>,
    from: usize,
    to: usize,
    item: T,
) -> Result<(), AllocError>
    requires order { from ≤ to }
    requires within { to ≤ length items.old.items }
    ensures { OnOk result (items.new.items ≡ replace_between from to item items.old.items) }
{
    if from == to {
        items.insert(from, item)?;
        return Ok(());
    }
    items[from] = item;
    for _ in from + 1..to {
        items.remove(from + 1);
    }
    Ok(())
}

// Begins a closed list at another index. The library's rotation by several indices clears a room on
// the stack, which takes longer than three reversals of a list as short as these.
fn begin_at<T>(items: &mut Vec<T>, index: usize)
    requires { index ≤ length items.old.items }
    ensures { items.new.items ≡ rotated index items.old.items }
{
    if index < 2 || items.len() - index == 1 {
        items.rotate_left(index);
        return;
    }
    let (front, back) = items.split_at_mut(index);
    front.reverse();
    back.reverse();
    items.reverse();
}

/// A copy of the list, with room for `room` more items. The only error is out-of-memory.
pub fn with_room<T: Copy>(alloc: Global, items: &[T], room: usize) -> Result<Vec<T>, AllocError>
    ensures { IfOk result (λ list. list.items ≡ items.now) }
{
    let mut list = Vec::with_capacity(alloc, items.len().saturating_add(room))?;
    list.extend_from_slice(items)?;
    Ok(list)
}

/// Replaces the list by the triangle's corners. The only error is out-of-memory.
pub fn put_corners<W: Width>(list: &mut Vec<W::Point>, t: &Tri) -> Result<(), AllocError>
    requires { IsTriWithin W.corner t.now }
    ensures { OnOk result (map W.spot list.new.items ≡ tri_corners t.now) }
{
    list.clear();
    list.push(W::point_at(&t.a))?;
    list.push(W::point_at(&t.b))?;
    list.push(W::point_at(&t.c))?;
    Ok(())
}

impl<W: Width> Boundary<W> {
    /// A boundary without sides.
    pub fn new(alloc: Global) -> Boundary<W> {
        Boundary {
            edges: Vec::new(alloc),
            corners: Vec::new(alloc),
            plane_indices: Vec::new(alloc),
        }
    }

    /// A copy, with room for `room` more sides. The only error is out-of-memory.
    pub fn copy(&self, alloc: Global, room: usize) -> Result<Boundary<W>, OutOfMemory>
        ensures edges { IfOk result (λ r. r.edges.items ≡ self.now.edges.items) }
        ensures corners { IfOk result (λ r. r.corners.items ≡ self.now.corners.items) }
        ensures plane_indices { IfOk result (λ r. r.plane_indices.items ≡ self.now.plane_indices.items) }
    {
        let edges = with_room(alloc, self.edges.as_slice(), room)?;
        let corners = with_room(alloc, self.corners.as_slice(), room)?;
        let plane_indices = with_room(alloc, self.plane_indices.as_slice(), room)?;
        Ok(Boundary {
            edges,
            corners,
            plane_indices,
        })
    }

    // Lets the sides begin at another index.
    fn rotate(&mut self, index: usize)
        requires index { index ≤ length self.old.edges.items }
        requires paired { HasEqualLengths self.old }
        ensures order { sides W.spot self.new ≡ rotated index (sides W.spot self.old) }
        ensures plane_indices { self.new.plane_indices.items ≡ rotated index self.old.plane_indices.items }
        ensures count { length self.new.edges.items ≡ length self.old.edges.items }
        ensures paired { HasEqualLengths self.new }
    {
        if index == 0 {
            return;
        }
        begin_at(&mut self.edges, index);
        begin_at(&mut self.corners, index);
        begin_at(&mut self.plane_indices, index);
    }

    // Lets an edge start at another corner.
    fn set_start(&mut self, index: usize, corner: W::Point)
        requires index { index < length self.old.edges.items }
        requires paired { HasEqualLengths self.old }
        ensures order { sides W.spot self.new ≡ with_start_at index (W.spot corner) (sides W.spot self.old) }
        ensures edges { self.new.edges ≡ self.old.edges }
        ensures paired { HasEqualLengths self.new }
    {
        self.corners[index] = corner;
    }

    // Puts a side in place of the sides with the indices `from` to `to - 1`.
    fn put(&mut self, from: usize, to: usize, side: ClosingSide<W>) -> Result<(), OutOfMemory>
        requires order { from ≤ to }
        requires within { to ≤ length self.old.edges.items }
        requires paired { HasEqualLengths self.old }
        ensures order { OnOk result (sides W.spot self.new ≡
            replace_between from to (closing_side side.plane (W.spot side.corner) side.plane_index)
            (sides W.spot self.old)) }
        ensures some { OnOk result (0 < length self.new.edges.items) }
        ensures paired { OnOk result (HasEqualLengths self.new) }
    {
        replace_between(&mut self.edges, from, to, side.plane)?;
        replace_between(&mut self.corners, from, to, side.corner)?;
        replace_between(&mut self.plane_indices, from, to, side.plane_index)?;
        Ok(())
    }

    /// Keeps the edges below the plane, from the entry to the exit, and puts the edge along the cut
    /// after them, as seen around the ring. Afterwards the boundary may begin at any of its edges.
    /// The only error is out-of-memory.
    pub fn close(
        &mut self,
        passage: &Passage<W>,
        plane: Plane,
        plane_index: usize,
    ) -> Result<(), OutOfMemory>
        requires entry_edge { passage.now.entry_edge < length self.old.edges.items }
        requires below_count { passage.now.below_count < length self.old.edges.items }
        requires paired { HasEqualLengths self.old }
        ensures part { OnOk result (IsPartOfBoundary W.spot self.old passage.now plane plane_index self.new) }
        ensures some { OnOk result (0 < length self.new.edges.items) }
    {
        let side = ClosingSide {
            plane,
            corner: passage.exit,
            plane_index,
        };
        let len = self.edges.len();
        let ahead = len - passage.entry_edge;
        if passage.below_count < ahead {
            // The kept edges don't go past the end of the lists. If they don't begin with edge 0,
            // edge 0 is cut away. The lists are rotated, and the new edge is appended.
            self.rotate(passage.entry_edge);
            self.set_start(0, passage.entry);
            self.put(passage.below_count + 1, len, side)?;
            Ok(())
        } else {
            // They go past the end, so edge 0 is kept. The new edge takes the place of the edges
            // between the last kept one and the entry, if there are any.
            self.set_start(passage.entry_edge, passage.entry);
            self.put(passage.below_count + 1 - ahead, passage.entry_edge, side)?;
            Ok(())
        }
    }

    /// Rotates the sides so that the oldest is first: the one whose plane has the lowest index.
    pub fn rotate_to_oldest(&mut self)
        requires some { 0 < length self.old.edges.items }
        requires paired { HasEqualLengths self.old }
        ensures order { IsRotated W.spot self.old self.new }
        ensures paired { HasEqualLengths self.new }
        ensures oldest { LeastFirst self.new.plane_indices.items }
    {
        let index = least(self.plane_indices.as_slice());
        self.rotate(index);
    }
}

// The index of the least number.
fn least(numbers: &[usize]) -> usize
    requires { 0 < length numbers.now }
    ensures within { result < length numbers.now }
    ensures least { LeastFirst (rotated result numbers.now) }
{
    let mut best = 0;
    for i in 1..numbers.len() {
        if numbers[i] < numbers[best] {
            best = i;
        }
    }
    best
}
