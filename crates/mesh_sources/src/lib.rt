//! From which triangle of a scene each triangle of a mesh comes: the first one in whose plane it lies and from which
//! it isn't apart.
#![tactic(auto)]

mod apart;
mod boxes;
mod corners;
mod facet;
mod items;
mod law;
mod mark;
mod nodes;
mod place;
mod search;
mod source;
mod sources;
mod spans;

pub use source::Source;
pub use sources::{source_count, sources_of};
