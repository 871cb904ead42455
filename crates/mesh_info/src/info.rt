// What is said of one mesh: its counts, its bounding box and its volume, and the line of JSON that
// says them.

mod bounds;
mod corners;
mod edges;
mod info;
mod line;
mod volume;

pub use bounds::BoundingBox;
pub use corners::triangles_of;
pub use info::{Info, info_of, put_info};
pub use line::put_quoted;
