//! Numbers of mesh files: decimals, binary32 and binary64, exactly; fractions with numerators of up to
//! 256 bits; the nearest whole number, decimal and binary32.
#![tactic(auto)]

mod float;
mod number;
mod round;

pub use ember_wide::{Magnitude, Wide};
pub use float::nearest_binary32;
pub use number::{
    Binary, Decimal, Exponent, MOST, Number, binary32, binary64, floor_times, integer,
    is_below_limit, number_below, number_in, read_decimal,
};
pub use round::{divide, nearest, put_decimal, put_shifted};
