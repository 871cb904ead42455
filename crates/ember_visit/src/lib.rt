//! The jobs of a run over a scene: the root's job, the value of an expression in the whole box of a
//! job, if it is known, and the jobs of the halves. ember_known decides which values are known,
//! ember_box whether a box is a leaf. ember_step puts these together: what becomes of one box.
#![tactic(auto)]

mod halving;
mod law;
mod start;
mod value;

pub use halving::{halve_job, halve_unless_leaf_among, listed_tris};
pub use law::{halves_of_a_job_are_jobs, known_values_are_true};
pub use start::{root_job, root_job_among};
pub use value::{box_value, box_value_among};
