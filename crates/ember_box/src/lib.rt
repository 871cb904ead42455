//! Boxes of space: the root box, its halves and the paths that name them, which triangles are near
//! a box, along which axis it is halved, and where halving ends.
//!
//! `bool` and `pairs` call `halve_box` (halved_box.rt) for a box. In one pass over the triangles
//! near the box it finds near which halves each of them is (near_parts.rt), and by the sums of
//! these numbers whether the box is a leaf, or else its axis (sums.rt). `voxels` chooses the axis
//! itself, and calls `near_halves` (nearness.rt, half_boxes.rt). README.md says what to read first.
#![tactic(auto)]

mod aabb;
mod cell;
mod half_boxes;
mod halved_box;
mod law;
mod near_parts;
mod nearness;
mod one_triangle;
mod steps;
mod sums;

pub use aabb::{
    Aabb, Interval, aabb_of_cell, aabb_of_tri, aabb_on, aabbs_meet, aabbs_meet_beside,
    interval_along,
};
pub use cell::{Cell, halves, root};
pub use halved_box::{HalvedBox, halve_box, halve_box_among};
pub use law::near_triangles_decide_the_halving;
pub use nearness::{near_halves, near_list, near_list_among};
pub use one_triangle::near;
pub use steps::lo_on;
pub use sums::{halving, is_leaf, split_axis};
