//! The maker of triangles: cuts the part of a plane to the left of its boundary into triangles, and
//! names the lines of their edges.
#![tactic(auto)]

mod cut;
mod diagonals;
mod lines;
mod reflex_chain;
mod ring;
mod sorted_boundary;
mod stop;
mod sweep;
mod touches;
mod view;
mod whole;

pub use cut::{Touch, Triangulation, triangles_of};
pub use lines::with_lines;
