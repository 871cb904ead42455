// Keys of planes and of lines: equal keys exactly for one oriented plane, and for one line.

mod division;
mod divisor;
mod law;
mod lines;
mod on_line;
mod planes;

pub use law::{line_keys_are_lines, plane_keys_are_oriented_planes};
pub use lines::{LineKey, has_direction, line_key};
pub use on_line::is_on_line;
pub use planes::plane_key;
