//! One box of a Boolean's tree: skipped if the expression's value is known in it, otherwise a leaf
//! with its written regions, or its two halves.
//!
//! `box_step` asks ember_visit (`box_value`) whether the box is skipped, and ember_visit
//! (`halve_unless_leaf_among`, by ember_box) whether it is a leaf. ember_leaf makes the regions of a
//! leaf. steal_pool calls the step for each box (`run_step`).
#![tactic(auto)]

mod count;
mod faces;
mod law;
mod outlines;
mod step;
mod text;

pub use count::{CountWork, count_step};
pub use ember_visit::root_job;
pub use faces::{FaceWork, faces_step};
pub use law::{
    known_boxes_write_nothing, leaf_faces_join, leaf_outlines_join, leaf_texts_join,
    visited_leaves_write_all, written_regions_are_one_list,
};
pub use outlines::{OutlineWork, outlines_step};
pub use step::{BoolWork, box_step, box_step_among};
pub use text::{TextWork, text_step};
