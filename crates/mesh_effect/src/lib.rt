//! What rounding did: how far corners moved, and which triangles vanished, turned over or lost their area.
#![tactic(auto)]

mod facing;
mod rounding;

pub use facing::{Facings, decimal_facings, float_facings};
pub use rounding::{
    Move, greatest_decimal_move, greatest_float_move, is_above_hundredth,
    moves_are_not_below_the_true_ones, put_move,
};
