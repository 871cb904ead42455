//! Winding numbers of a scene at points of space, counted along rays, and carried from point to
//! point along segments. They don't depend on the axis.
#![tactic(auto)]

mod count;

pub use count::{add_count, axis_count, leg_count};
