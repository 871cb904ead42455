//! The top call: from words and files to the output, the line on err and the exit status.
#![tactic(auto)]

mod bool_command;
mod pairs;
mod reply;
mod top;
mod voxels;

pub use ember_verdict::{
    FaceFault, LimitKind, Status, accepted_files_are_a_scene, accepted_inputs_have_one_text,
    clear_points_are_found, counts_along_all_axes_agree, documents_of_solids_can_be_sliced,
    face_files_have_one_reading, faces_of_closed_meshes_are_closed, faces_wind_as_read,
    inputs_are_accepted_where_they_have_an_output, lattices_sample_the_solid,
    outputs_have_one_text, slices_of_files_have_one_text, slices_of_solids_mean_the_expression,
    solids_are_closed, solids_are_one_where_expressions_agree, solids_have_one_document,
    solids_wind_once_at_most, values_at_points_are_of_the_solid, workers_change_no_verdict,
};
pub use top::{run, run_one};
