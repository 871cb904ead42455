// Writes vertices and triangles as OBJ, PLY and OFF.

mod format;
mod lines;
mod obj;
mod off;
mod ply;
mod whole;

pub use format::TextFormat;
pub use obj::put_obj_lines;
pub use whole::mesh_text;
