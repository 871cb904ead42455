// Vertices, each once, and triangles by the indices of their corners.

mod laws;
mod mesh;
mod point;

pub use laws::{indices_lead_to_corners, vertices_are_distinct};
pub use mesh::IndexedMesh;
pub use point::{DecimalPoint, DecimalTriangle, IndexedTriangle};
