//! Where output goes: files that are written whole or not at all, and the line of progress.
#![tactic(auto)]

mod progress;
mod target;

pub use progress::{
    ProgressGate, ROOT_WEIGHT, Stage, Stages, all_boxes_weigh_as_the_root, halves_weigh_half,
    percentage, weight,
};
pub use target::{
    BeginEnd, FileTarget, MemoryTarget, NamedFile, Target, Unwritten, WriteEnd, write_each,
    write_whole,
};
