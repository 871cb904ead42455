//! A stated scene of many boxes, for trials and measurements.
#![tactic(auto)]

mod block;
mod numbers;
mod scene;

pub use scene::scene_of;
