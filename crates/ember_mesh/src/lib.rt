//! From the triangles of the files to a scene: at most 262,144 triangles in all, and those of each
//! file closed.
#![tactic(auto)]

mod fault;
mod joining;
mod states;

pub use fault::{JoinFault, MeshFault};
pub use joining::join;
pub use states::{Closed, Parts, Solid, balanced, check};
