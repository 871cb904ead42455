// The pairs of all leaves in one list.
ghost use Rattle.std.specs.Prelude.{◌≡◌, IfOk};
ghost use Rattle.ember_pairs.specs.Gathering.{together, AreGathered};

use crate::pair::{Pair, PairList};
use ember_model::OutOfMemory;
use std::alloc::Global;

// All pairs, one list after another.
fn append_all(alloc: Global, items: &[PairList]) -> Result<Vec<Pair>, OutOfMemory>
    ensures { IfOk result (λ v. v.items ≡ together items.now) }
{
    let mut all = Vec::new(alloc);
    for item in items {
        all.extend_from_slice(item.items())?;
    }
    Ok(all)
}

/// The pairs that occur in some item, each once, in order. The only error is out-of-memory.
pub fn gather(alloc: Global, items: Vec<PairList>) -> Result<PairList, OutOfMemory>
    ensures { IfOk result (λ ps. AreGathered items.items ps) }
{
    let mut all = append_all(alloc, &items)?;
    // Sorting needs room for as many pairs again.
    drop(items);
    all.sort()?;
    all.dedup();
    Ok(PairList::of(all))
}
