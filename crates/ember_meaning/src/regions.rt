// What the written regions of a scene mean: at each point that is clear of all faces they wind
// once where the expression is true, and not at all elsewhere. The faces that are read back from
// their document mean the same, and are a closed surface.

mod law;

pub use law::{
    documents_read_with_their_meaning, outlined_faces_have_their_meaning_nearby,
    solids_are_one_where_expressions_agree, written_regions_have_their_meaning,
    written_regions_outlined_are_a_surface,
};
