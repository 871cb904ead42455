//! The items of a run's leaves, brought into the order of the tree. The run itself is steal_pool's.
#![tactic(auto)]

mod part;
mod tree;

pub use part::Part;
pub use tree::merge;
