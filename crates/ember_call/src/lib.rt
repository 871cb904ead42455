//! Both programs as functions over bytes: words and files in memory in; the exit status, what goes to
//! the two streams, and the files that are written, out. The system isn't asked for anything but memory.
#![tactic(auto)]

mod ember;
mod growing_sink;
mod lent;
mod lent_shelf;
mod mesh;
mod outcome;
mod taken_files;
mod texts;

pub use ember::command;
pub use lent::{Lent, LentFile};
pub use mesh::mesh_command;
pub use outcome::Outcome;
