//! Meshes in arrays: the surface of vertices and triangles that a caller lends, and the arrays of a mesh of
//! decimals.
#![tactic(auto)]

mod doubles;
mod fault;
mod indices;
mod mesh;
mod surface;

pub use doubles::{double_at, double_points};
pub use fault::IndexFault;
pub use indices::index_triples;
pub use mesh::ArrayMesh;
pub use surface::surface_of;
