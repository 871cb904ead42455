// Corners in classes: those of one class are one vertex.
//
// Each corner has a parent. A corner that is its own parent is the root of its class; other parents
// are lower corners. What isn't so does no harm: corners are then in more classes than necessary.
ghost use Rattle.std.specs.Prelude.{◌≡◌, slice_index_or};

use std::alloc::{AllocError, Global};

/// Each of so many corners in a class of its own.
pub fn own_classes(alloc: Global, corners: usize) -> Result<Vec<usize>, AllocError> {
    let mut parents = Vec::with_capacity(alloc, corners)?;
    for corner in 0..corners {
        parents.push(corner)?;
    }
    Ok(parents)
}

// The parent of a corner, or the corner itself if it isn't there.
fn parent(parents: &[usize], corner: usize) -> usize
    ensures { result ≡ slice_index_or parents.now corner corner }
{
    match parents.get(corner) {
        Some(parent) => *parent,
        None => corner,
    }
}

fn set_parent(parents: &mut [usize], corner: usize, above: usize) {
    if let Some(parent) = parents.get_mut(corner) {
        *parent = above;
    }
}

/// The root of the corner's class. The way to it becomes shorter.
pub fn root(parents: &mut [usize], corner: usize) -> usize {
    let mut at = corner;
    for _step in 0..parents.len() {
        let above = parent(parents, at);
        if above == at {
            return at;
        }
        let next = parent(parents, above);
        set_parent(parents, at, next);
        at = next;
    }
    at
}

/// Joins the classes of two corners.
pub fn join(parents: &mut [usize], one: usize, other: usize) {
    let first = root(parents, one);
    let second = root(parents, other);
    if first < second {
        set_parent(parents, second, first);
    } else {
        set_parent(parents, first, second);
    }
}
