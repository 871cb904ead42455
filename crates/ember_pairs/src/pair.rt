// Pairs of triangles, and lists of them.
ghost use Rattle.std.specs.Prelude.{◌≡◌};

use std::marker::Model;

/// The indices of two triangles of a scene, the lower one first. Pairs are ordered by the first
/// index, and then by the second.
#[derive(Clone, Copy, Debug, PartialEq, Eq, PartialOrd, Ord)]
pub struct Pair {
    pub low: u32,
    pub high: u32,
}

/// A list of pairs.
#[derive(Drop)]
pub struct PairList {
    pairs: Vec<Pair>,
}

impl Model for PairList {
    ghost use Rattle.std.specs.Prelude.{List};
    ghost use Rattle.ember_pairs.specs.declared.pair.Pair.{Pair};

    ghost Value = { List Pair };

    ghost view = { λ s. s.pairs.items };
}

impl PairList {
    /// The list of these pairs.
    pub fn of(pairs: Vec<Pair>) -> PairList
        ensures { result ≡ pairs.items }
    {
        PairList { pairs }
    }

    /// The pairs in order.
    pub fn items(&self) -> &[Pair]
        ensures { result.now ≡ self.now }
    {
        &self.pairs
    }

    /// The pairs as a vector.
    pub fn into_vec(self) -> Vec<Pair>
        ensures { result.items ≡ self }
    {
        self.pairs
    }
}
