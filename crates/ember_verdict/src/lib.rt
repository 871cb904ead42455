//! What an input asks for: its verdict, which is an output or the refusal that comes first. How a
//! call ends, with its line on standard error; how files become scenes; the commands that visit no
//! box; and the laws about verdicts and outputs.
#![tactic(auto)]

mod accepted;
mod at;
mod expression;
mod faces;
mod law;
mod lines;
mod one_solid;
mod reading;
mod scene;
mod slice;
mod status;

pub use accepted::{accepted_files_are_a_scene, inputs_are_accepted_where_they_have_an_output};
pub use at::at_output;
pub use expression::{parse_bounded, parse_text, parse_union};
pub use faces::faces_output;
pub use law::{
    accepted_inputs_have_one_text, clear_points_are_found, counts_along_all_axes_agree,
    documents_of_solids_can_be_sliced, face_files_have_one_reading,
    faces_of_closed_meshes_are_closed, faces_wind_as_read, outputs_have_one_text,
    slices_of_files_have_one_text, solids_are_closed, solids_have_one_document,
    workers_change_no_verdict,
};
pub use lines::{say_out_of_memory, say_status, say_words_refused};
pub use one_solid::{
    lattices_sample_the_solid, slices_of_solids_mean_the_expression,
    solids_are_one_where_expressions_agree, solids_wind_once_at_most,
    values_at_points_are_of_the_solid,
};
pub use scene::read_scene;
pub use slice::slice_output;
pub use status::{FaceFault, LimitKind, Status};
