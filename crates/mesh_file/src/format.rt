// Says which format a mesh file has.

mod format;
mod signs;

pub use format::{Format, format_of};
