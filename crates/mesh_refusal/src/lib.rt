//! What ember-mesh says of a request that isn't met: the line on standard error, the same as an object of JSON,
//! and the exit status. It makes texts, and reads and writes nothing.
#![tactic(auto)]

mod export_lines;
mod lines;
mod placings;
mod refusal_objects;
mod refusals;
mod said;
mod status;
mod word_lines;

pub use refusals::status_of;
pub use said::{
    export_said, memory_said, output_said, reading_said, snap_said, solid_said, words_said,
};
pub use status::Status;
