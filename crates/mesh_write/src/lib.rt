//! Mesh files written: STL, OBJ, PLY, OFF and GLB, and that a reader gets back what was written.
#![tactic(auto)]

mod glb;
mod reading;
mod stl;
mod text;
mod vertices;

pub use glb::{GlbWriteFault, glb_bytes, put_all_corners};
pub use reading::{obj_texts_are_read, off_texts_are_read, ply_texts_are_read};
pub use stl::{FloatPoint, FloatTriangle, StlWriteFault, put_number, put_point, stl_bytes};
pub use text::{TextFormat, mesh_text, put_obj_lines};
pub use vertices::{
    DecimalPoint, DecimalTriangle, IndexedMesh, IndexedTriangle, indices_lead_to_corners,
    vertices_are_distinct,
};
