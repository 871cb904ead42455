// Closed surfaces: if the winding numbers of faces agree along all axes, the edges of their
// outlines are closed.

mod law;

pub use law::{
    agreeing_faces_are_closed, agreeing_faces_have_paired_pieces, outlined_faces_are_missed_nearby,
};
