// Corners at which lines are split.
use ember_model::OutOfMemory;
use std::alloc::Global;

/// A corner at which the segments of all planes on a line are split.
#[derive(Clone, Copy, Debug, PartialEq, Eq, PartialOrd, Ord)]
pub struct Split {
    pub line: u32,
    pub corner: u32,
}

/// Adds splits to those in order, and returns whether one of them is new.
pub fn add_splits(splits: &mut Vec<Split>, more: &[Split]) -> Result<bool, OutOfMemory> {
    let before = splits.len();
    splits.extend_from_slice(more)?;
    splits.sort_unstable();
    splits.dedup();
    Ok(before < splits.len())
}

/// The splits of the line among splits in order.
pub fn splits_on(splits: &[Split], line: u32) -> &[Split] {
    let first = splits.partition_point(|s| s.line < line);
    let behind = splits.partition_point(|s| s.line <= line);
    splits.get(first..behind).unwrap_or(&[])
}

/// The lines of splits, in order.
pub fn lines_of(alloc: Global, splits: &[Split]) -> Result<Vec<u32>, OutOfMemory> {
    let mut lines = Vec::with_capacity(alloc, splits.len())?;
    for split in splits {
        lines.push(split.line)?;
    }
    lines.sort_unstable();
    lines.dedup();
    Ok(lines)
}
