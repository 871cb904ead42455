//! The certificate of triangles: they have the edges of the faces that they came from, on every line.
#![tactic(auto)]

mod certificate;
mod key;

pub use certificate::{
    Segment, Triangle, are_closed, are_free_paired, are_on_lines, are_parts_certified,
    are_triangles_closed, closed_segments_cancel, faces_front, is_certified,
    one_boundary_has_one_chain, one_boundary_has_one_sum, one_chain_has_one_boundary, same_chains,
    segment_key,
};
pub use key::{
    LineKey, has_direction, is_on_line, line_key, line_keys_are_lines, plane_key,
    plane_keys_are_oriented_planes,
};
