//! Whether triangles are closed: no directed edge occurs more often than its reverse.
#![tactic(auto)]

mod loose;
mod numbers;
mod surplus;
mod two_way;

pub use loose::{Loose, balance};
