//! Surfaces on a grid: the step, the nearest positions, and how far each corner moves.
#![tactic(auto)]

mod grid;
mod moves;
mod snap;

pub use grid::{
    Grid, GridFault, SceneExtent, SnapFault, Snapped, Wanted, count_images, grid_of,
    maps_keep_meshes_closed, place_of_edge, snap_surface,
};
pub use moves::{Length, greatest_moves, moves_are_not_below_the_true_ones};
pub use snap::{
    Coordinates, GridSize, GridStep, Offset, are_coordinates, cell, finest_step,
    finest_step_within, grid_number_within, nice_step, nice_step_within, offset_at, offset_within,
    step_of,
};
