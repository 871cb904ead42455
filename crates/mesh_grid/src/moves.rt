// How far the corners of a surface's triangles move to a grid: the greatest move, rounded up.

mod axis;
mod fineness;
mod greatest;
mod laws;
mod length;
mod shown;
mod squares;

pub use greatest::greatest_moves;
pub use laws::moves_are_not_below_the_true_ones;
pub use length::Length;
