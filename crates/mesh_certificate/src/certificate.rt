// The checker of triangles: whether triangles have the boundary of a document's faces, plane by
// plane, are closed, and face the front of their planes.

mod certificate;
mod chains;
mod closed;
mod corners;
mod facing;
mod free_pairs;
mod keys;
mod law;
mod on_lines;
mod order;
mod segment;
mod triangle;
mod unmatched;

pub use certificate::{are_parts_certified, are_triangles_closed, is_certified};
pub use chains::same_chains;
pub use closed::are_closed;
pub use facing::faces_front;
pub use free_pairs::are_free_paired;
pub use keys::segment_key;
pub use law::{
    closed_segments_cancel, one_boundary_has_one_chain, one_boundary_has_one_sum,
    one_chain_has_one_boundary,
};
pub use on_lines::are_on_lines;
pub use segment::Segment;
pub use triangle::Triangle;
