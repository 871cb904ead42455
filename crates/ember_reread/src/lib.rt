//! Reads face files back.
#![tactic(auto)]

mod cornered;
mod cornered_face;
mod edges;
mod faces;
mod fault;
mod fields;
mod law;
mod number;
mod parts;

pub use cornered::read_cornered_faces;
pub use cornered_face::{CorneredEdge, CorneredFace};
pub use faces::read_faces;
pub use fault::RereadFault;
pub use law::faces_have_one_text;
