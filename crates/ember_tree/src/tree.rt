// Brings the items of parts, which may be in any order, into the order of the tree.
ghost use Rattle.std.specs.Prelude.{◌≡◌, ◌*◌, ◌^◌, IfOk};
ghost use Rattle.ember_tree.specs.Order.{tree_key, IsMerged};

use crate::Part;
use std::alloc::{AllocError, Global};

// The sort key of a path: the path shifted left until its highest bit is bit 63.
fn sort_key(path: u64) -> u64
    ensures { result ≡ tree_key path }
{
    if path == 0 {
        return 0;
    }
    path * (1u64 << path.leading_zeros())
}

/// The items in the order of the tree, left half first. If no path, read as binary digits, is the
/// beginning of another one, the result doesn't depend on the order of the parts. The paths of a
/// run's leaves are such. The only error is out-of-memory.
pub fn merge<I: Drop>(alloc: Global, parts: Vec<Part<I>>) -> Result<Vec<I>, AllocError>
    ensures { IfOk result (λ v. IsMerged parts.items v.items) }
{
    let mut sorted = parts;
    sorted.sort_by_key(
        |part: &Part<I>| -> u64
            ensures { result ≡ tree_key part.now.path }
        { sort_key(part.path) },
    )?;
    let mut items = Vec::with_capacity(alloc, sorted.len())?;
    // Reversed and popped, the parts give up their items in order.
    sorted.reverse();
    while let Some(part) = sorted.pop() {
        items.push_reserved(part.item);
    }
    Ok(items)
}
