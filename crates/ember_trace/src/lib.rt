//! The winding numbers on both sides of a region, on each grid. README.md says how.
//!
//! `trace_sides_on` (sides.rt) makes a path to the region (path.rt, vertices.rt) and counts how often
//! the path crosses each near triangle (segments.rt). Most triangles are excluded by their bounding
//! boxes (path_limits.rt). edges.rt and edge_lines.rt say behind which edges of a triangle a segment
//! runs; reference_lines.rt knows it for all first segments, and own_triangle.rt for the region's
//! own triangle. Only tests use whole_rays.rt.
#![tactic(auto)]

mod crossing_signs;
mod edge_line;
mod edge_lines;
mod edges;
mod law;
mod limits;
mod near;
mod near_triangle;
mod own_triangle;
mod path;
mod path_limits;
mod reference_lines;
mod region_sides;
mod segments;
mod sides;
mod vertices;
mod whole_rays;

pub use law::slid_support_planes_are_valid;
pub use near::near_triangles_on;
pub use near_triangle::NearTriangle;
pub use region_sides::Sides;
pub use sides::{sides_traced, trace_sides_on};
pub use whole_rays::sides_whole;
