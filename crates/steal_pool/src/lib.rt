//! Workers that share boxes by their deques.
//!
//! The pool has no geometry. For each box it calls the step (`run_step` in alone.rt), and the step
//! says what becomes of the box: for `bool` that is `text_step` of ember_step, which asks
//! ember_visit and ember_box, and for a leaf ember_leaf. ember_tree brings the items into the order
//! of the tree.
#![tactic(auto)]

mod alone;
mod gate;
mod harvest;
mod heap_jobs;
mod law;
mod names;
mod output;
mod owners;
mod pool;
mod progress;
mod protocol;
mod state;
mod threads;
mod tree;
mod worker;

pub use gate::{DepthGate, Gate, OpenGate, TURNS};
pub use harvest::{Harvest, PartList};
pub use law::{
    items_that_answer_are_equal, journals_are_a_run_of_the_core, merged_items_answer_the_leaves,
};
pub use tree::{run_alone, run_tree};
