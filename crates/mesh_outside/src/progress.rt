// Shows on a terminal how far a run has come: a worker gate that is told of stages and weighs the boxes
// which enter it, and a line that it writes again and again.

mod gate;
mod laws;
mod stage;
mod weights;

pub use gate::ProgressGate;
pub use laws::{all_boxes_weigh_as_the_root, halves_weigh_half};
pub use stage::{Stage, Stages};
pub use weights::{ROOT_WEIGHT, percentage, weight};
