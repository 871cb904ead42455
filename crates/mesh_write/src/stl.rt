// Writes triangles as a binary STL.

mod fault;
mod triangle;
mod writing;

pub use fault::StlWriteFault;
pub use triangle::{FloatPoint, FloatTriangle};
pub use writing::{put_number, put_point, stl_bytes};
