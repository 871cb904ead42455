//! Reads the vertices and triangles of a glTF 2.0 document, a GLB or JSON whose buffers are inside,
//! exactly. Whatever else the document holds is passed over.
#![tactic(auto)]

mod buffers;
mod bytes;
mod chunks;
mod corners;
mod fault;
mod members;
mod nodes;
mod points;
mod primitives;
mod reading;
mod triangles;
mod windows;

pub use chunks::is_glb;
pub use fault::GltfFault;
pub use reading::read_gltf;
