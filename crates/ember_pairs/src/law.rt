// The law of the whole listing.
ghost use Rattle.std.specs.Prelude.{List};
ghost use Rattle.ember_pairs.specs.declared.pair.Pair.{Pair};
ghost use Rattle.ember_pairs.specs.Pairs.{ArePairs};
ghost use Rattle.ember_pairs.specs.Gathering.{AreGathered};
ghost use Rattle.ember_pairs.specs.Whole.{AreItems, leaf_jobs};

use ember_model::Scene;

/// The gathered pairs of all leaves are the pairs of the scene whose triangles meet, in order:
/// triangles that meet share a leaf.
pub fn gathered_pairs_are_all(_s: &Scene)
    ensures { (items : List (List Pair)) (ps : List Pair) → AreItems _s.now.tris (leaf_jobs _s.now.tris) items →
        AreGathered items ps → ArePairs _s.now.tris ps }
{}
