//! Triangles that no other one touches: they have one value on each of their sides, so they are kept
//! or dropped whole. And a test that shows of most pairs of triangles that they don't touch.
#![tactic(auto)]

mod corners;
mod law;
mod touching;

pub use law::{
    alone_triangles_have_uniform_sides, neighbours_have_equal_values, whole_faces_wind_alike,
};
pub use touching::may_touch;
