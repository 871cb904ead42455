//! The jobs of a run, what answers each of them, and steps with what they promise.
//!
//! A job is a box with its near triangles. For `bool`, several crates decide what becomes of it:
//! steal_pool asks a step for each job (`run_step`), and ember_step is this step. It skips the box
//! if the expression's value is known there (ember_visit, ember_known). Otherwise ember_box says
//! whether the box is a leaf; ember_leaf makes the regions of a leaf, and ember_visit the two
//! halves' jobs. ember_tree brings the items of all leaves into the order of the tree.
#![tactic(auto)]

mod job;
mod lists;
mod step;

pub use job::{Entry, Job, Kind, Outcome};
pub use lists::{Journals, Numbers};
pub use step::{OneItem, Step, Work};
