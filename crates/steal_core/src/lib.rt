//! The core: a model of which boxes of a run each worker holds, has queued or has ended, and of how
//! boxes move.
//!
//! It runs no box. Worker `k` of `n` workers has hand `k` and deque `k`; number `n`
//! is the caller, who has only a hand. At the start worker 0 holds box 1. The halves of the box
//! with the path `p` have the paths `2 * p` and `2 * p + 1`.
#![tactic(auto)]

mod law;
mod place;
mod state;

pub use law::{ended_boxes_come_in_pairs, every_list_of_events, journals_are_a_run};
pub use place::{Event, Place, Placed};
pub use state::State;
