//! What faces and written regions of a scene mean, that whole triangles in place of some regions
//! keep it, and that the surface of faces which wind alike along all axes is closed.
#![tactic(auto)]

mod closed;
mod regions;
mod whole;

pub use closed::{
    agreeing_faces_are_closed, agreeing_faces_have_paired_pieces, outlined_faces_are_missed_nearby,
};
pub use regions::{
    documents_read_with_their_meaning, outlined_faces_have_their_meaning_nearby,
    solids_are_one_where_expressions_agree, written_regions_have_their_meaning,
    written_regions_outlined_are_a_surface,
};
pub use whole::{
    faces_with_a_meaning_are_closed, whole_faces_keep_the_meaning, written_regions_are_fragments,
};
