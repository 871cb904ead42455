// Reads the vertices and triangles of an OFF file.

mod counts;
mod faces;
mod fault;
mod keywords;
mod reading;
mod row;
mod rows;
mod signs;
mod vertices;

pub use fault::OffFault;
pub use reading::read_off;
pub use signs::{begins_with_count, is_off};
