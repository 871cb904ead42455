//! What ember-mesh reports of a request that is met, as lines and as an object of JSON, and the answers to `help`
//! and `--version`. It makes texts, and reads and writes nothing.
#![tactic(auto)]

mod lying;
mod messages;
mod report;
mod report_objects;
mod said;
mod volumes;

pub use messages::{USAGE, VERSION};
pub use said::{exported_report, placed_report, solid_report};
