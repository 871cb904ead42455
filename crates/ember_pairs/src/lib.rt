//! Pairs of triangles that cross or overlap: the test of one pair, the step that looks for them box
//! by box, the list of all of them, and its text.
#![tactic(auto)]

mod by_edges;
mod chords;
mod edge_heights;
mod gathering;
mod heights;
mod law;
mod meetings;
mod pair;
mod samples;
mod step;
mod text;

pub use gathering::gather;
pub use law::gathered_pairs_are_all;
pub use meetings::meeting;
pub use pair::{Pair, PairList};
pub use step::{PairWork, pair_step, root_pairs};
pub use text::pairs_text;
