// Exact numbers as mesh files have them: decimals with any number of digits, binary floats and
// integers. Allocates nothing.

mod binary_sizes;
mod decimal_sizes;
mod floats;
mod floors;
mod naturals;
mod texts;
mod values;

pub use floats::{binary32, binary64, integer};
pub use floors::{floor_times, is_below_limit};
pub use naturals::{MOST, number_below, number_in};
pub use texts::read_decimal;
pub use values::{Binary, Decimal, Exponent, Number};
