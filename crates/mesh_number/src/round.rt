// Rounding of fractions to numbers that can be written.

mod decimal;
mod rounding;

pub use decimal::{put_decimal, put_shifted};
pub use rounding::{divide, nearest};
