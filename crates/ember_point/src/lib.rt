//! Corners as meets of three planes, exact in 128 bits.
#![tactic(auto)]

mod cross;
mod law;
mod lowest;
mod meet_point;
mod meeting;
mod plane_side;
mod short;

pub use law::values_at_meets_are_small;
pub use lowest::reduce;
pub use meet_point::Meet;
pub use meeting::meet;
pub use plane_side::{side, slide};
pub use short::{has_short_numbers, short_side};
