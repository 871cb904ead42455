//! The written regions of a leaf box: its near triangles are clipped by the box and cut by one
//! another, and a piece is written if the expression differs on its two sides.
//!
//! `leaf_faces` (leaf.rt) takes one near triangle after another. clip.rt clips it to the box.
//! cutters.rt finds the triangles that may cut what is left (relation.rt). regions.rt cuts it, and
//! drops what an earlier coplanar triangle owns. ember_trace finds the winding numbers on both
//! sides of each region that remains. README.md says which definitions to read first.
#![tactic(auto)]

mod clip;
mod contact;
mod cutter;
mod cutters;
mod kept;
mod law;
mod leaf;
mod regions;
mod relation;
mod wall;

pub use kept::{Kept, KeptList};
pub use law::special_cases_are_the_literal_definition;
pub use leaf::{leaf_faces, leaf_faces_on};
