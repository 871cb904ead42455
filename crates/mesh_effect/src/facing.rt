// How rounded triangles face: how many have no area, and how many are turned over.

mod counts;
mod decimals;
mod digits;
mod facings;
mod floats;
mod long_area;
mod parts;
mod short_area;
mod short_point;
mod sums;

pub use counts::{decimal_facings, float_facings};
pub use facings::Facings;
