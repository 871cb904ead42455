// Jobs, and what becomes of them.
use crate::Numbers;
use ember_box::Cell;
use ember_model::Vector;

/// A box, the triangles that its step looks at, and the winding numbers at its reference point.
#[derive(Drop)]
pub struct Job {
    pub cell: Cell,
    /// The indices, in the scene, of the triangles that the step looks at: in every command those
    /// near the box.
    pub list: Numbers,
    /// The winding numbers at the box's reference point.
    pub at: Vector,
}

/// What becomes of a box: its two halves are visited next, or it is a leaf that gives an item, or
/// it gives nothing and nothing below it is visited.
#[derive(Drop)]
pub enum Outcome<I> {
    Halves(Job, Job),
    Leaf(I),
    Skipped,
}

/// What became of a box, without its halves or its item. `Passed` is the kind of
/// `Outcome::Skipped`.
#[derive(Clone, Copy, Debug, PartialEq, Eq)]
pub enum Kind {
    Halved,
    Leafed,
    Passed,
}

/// A visited box, by its path in the tree, and what became of it.
#[derive(Clone, Copy, Debug, PartialEq, Eq)]
pub struct Entry {
    pub path: u64,
    pub kind: Kind,
}
