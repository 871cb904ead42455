//! Convex faces with their corners: the face of a triangle, its edges in order round it, on which
//! sides of a plane it lies, its parts below and above one, and the triangles that it meets. All of it
//! is generic over the width of the grid.
//!
//! The type is `Ring` (ring.rt), and boundary.rt keeps its sides. A `Draft` (draft.rt) is a face
//! that planes clip in place: passage.rt finds where a plane cuts it; level.rt tells walls from other
//! planes, for which small numbers suffice. cutting.rt makes the parts of a ring. reaching.rt finds on
//! which sides of a plane a ring lies, meeting.rt whether it meets a triangle. README.md says what to
//! read first.
#![tactic(auto)]

mod boundary;
mod cutting;
mod draft;
mod law;
mod level;
mod meeting;
mod passage;
mod reach_and_cut;
mod reaching;
mod ring;

pub use cutting::{above, clip, cut, parts};
pub use draft::Draft;
pub use law::{rings_are_bounded, rings_are_valid_and_bounded};
pub use meeting::{has_point_within, meets, meets_face};
pub use reach_and_cut::{Cut, Reach};
pub use reaching::reach;
pub use ring::{Ring, copy, corners, edges, of_tri, of_tri_on, outline, planes, support};
