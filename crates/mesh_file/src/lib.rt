//! A mesh file of any format: which format it is, its surface, and why it is refused.
#![tactic(auto)]

mod file;
mod format;

pub use file::{FileFault, UnreadFormat, put_reason, read_file};
pub use format::{Format, format_of};
