//! The three-valued truth of an expression if the winding numbers of some meshes are
//! undecided.
#![tactic(auto)]

mod law;
mod mask;
mod truth;

pub use law::decided_is_true;
pub use mask::Mask;
pub use truth::known;
