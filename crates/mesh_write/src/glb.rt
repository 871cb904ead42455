// Writes triangles as a GLB, the binary file of glTF 2.0.

mod bounds;
mod coordinates;
mod fault;
mod json;
mod writing;

pub use fault::GlbWriteFault;
pub use writing::{glb_bytes, put_all_corners};
