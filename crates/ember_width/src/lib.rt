//! Numbers of two widths behind one trait: planes, and the points in which three of them meet, on the
//! narrow grid and on the broad one.
#![tactic(auto)]

mod across;
mod broad;
mod broad_point;
mod corners;
mod cross;
mod far_point;
mod floor_point;
mod floors;
mod heights;
mod law;
mod levels;
mod meeting;
mod narrow;
mod narrow_levels;
mod points;
mod root_floors;
mod short_numbers;
mod short_point;
mod sides;
mod width;

pub use broad::Broad;
pub use broad_point::BroadPoint;
pub use far_point::FarPoint;
pub use floor_point::FloorPoint;
pub use heights::{Heights, heights_of, is_behind, is_in_front};
pub use law::planes_of_triangles_are_within;
pub use levels::broad_level_point;
pub use narrow::Narrow;
pub use short_point::ShortPoint;
pub use sides::value_at_corner;
pub use width::Width;
