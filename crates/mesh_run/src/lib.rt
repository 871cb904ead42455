//! The top call of the second program: from words and files to the written files, the report and the
//! exit status.
#![tactic(auto)]

mod asked;
mod exports;
mod files;
mod infos;
mod reading;
mod snaps;
mod solid;
mod top;
mod views;
mod writing;

pub use mesh_refusal::Status;
pub use top::{run_mesh, run_mesh_one};
