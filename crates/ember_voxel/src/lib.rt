//! A solid sampled on a lattice: the work of one box, and the text of all cells.
#![tactic(auto)]

mod fill;
mod grid;
mod law;
mod step;

pub use fill::{Fill, FillList};
pub use grid::grid_text;
pub use law::{bits_have_one_text, each_cell_has_its_value};
pub use step::{VoxelWork, voxel_step};
