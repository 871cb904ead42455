//! The directed segments in which a level plane cuts faces.
#![tactic(auto)]

mod ends;
mod face;
mod fault;
mod interval;
mod law;
mod line;
mod narrow;
mod text;

pub use ends::Segment;
pub use face::segment;
pub use fault::{Endless, SliceFault};
pub use law::{segments_wind_as_faces, slices_have_one_text};
pub use text::slice_text;
