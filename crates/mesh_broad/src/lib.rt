//! Numbers of corners on the broad grid: remainders in lowest terms, and fractions of up to 512 bits
//! with the whole number and the binary32 nearest to them.
#![tactic(auto)]

mod binary32;
mod dividing;
mod far_places;
mod numerators;
mod points;
mod reducing;
mod remainders;
mod rounding;
mod scaling;

pub use binary32::nearest_binary32;
pub use dividing::divide;
pub use numerators::{LongNumber, long_numerator};
pub use points::reduced_point;
pub use reducing::reduced;
pub use remainders::Remainders;
pub use rounding::{nearest, nearest_multiple};
