// Reads the vertices and triangles of an OBJ file, whose coordinates are any decimals.

mod faces;
mod fault;
mod lines;
mod reading;
mod references;
mod rows;
mod vertices;

pub use fault::WavefrontFault;
pub use reading::read_wavefront;
