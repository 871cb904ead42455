// Texts of meshes that are written and read again have the same points and triangles.

mod laws;

pub use laws::{obj_texts_are_read, off_texts_are_read, ply_texts_are_read};
