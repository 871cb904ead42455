// Whole triangles in place of the written regions of triangles that no other one touches.

mod law;

pub use law::{
    faces_with_a_meaning_are_closed, whole_faces_keep_the_meaning, written_regions_are_fragments,
};
