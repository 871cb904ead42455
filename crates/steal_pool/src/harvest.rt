// What a run gives.
ghost use Rattle.std.specs.Prelude.{◌≡◌};

use ember_job::Journals;
use ember_tree::Part;
use std::marker::Model;

/// A list of parts.
#[derive(Drop)]
pub struct PartList<I> {
    parts: Vec<Part<I>>,
}

impl<I> Model for PartList<I> {
    ghost use Rattle.std.specs.Prelude.{List};
    ghost use Rattle.ember_tree.specs.declared.part.Part.{Part};

    ghost Value = { List (Part I) };

    ghost view = { λ s. s.parts.items };
}

impl<I> PartList<I> {
    /// The list of these parts.
    pub fn of(parts: Vec<Part<I>>) -> PartList<I>
        ensures { result ≡ parts.items }
    {
        PartList { parts }
    }

    /// The parts in order.
    pub fn items(&self) -> &[Part<I>]
        ensures { result.now ≡ self.now }
    {
        &self.parts
    }

    /// The parts as a vector.
    pub fn into_vec(self) -> Vec<Part<I>>
        ensures { result.items ≡ self }
    {
        self.parts
    }
}

/// What a run gives: the items of the leaves with their paths, and the boxes that each worker
/// ended. `run_alone` gives one journal; of those of `run_tree`, the last is the caller's. `left`
/// is how many boxes the caller ended after the workers: those left in the deques and all below. (It
/// isn't about left halves.)
#[derive(Drop)]
pub struct Harvest<I> {
    pub parts: PartList<I>,
    pub journals: Journals,
    pub left: u64,
}
