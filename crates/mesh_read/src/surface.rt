// What the files of mesh programs hold: vertices with exact coordinates, and triangles over them.

mod fan;
mod flaw;
mod surface;

pub use fan::push_fan;
pub use flaw::{Flaw, as_mesh};
pub use surface::{Facet, Surface, Vertex};
