//! Surfaces moved, scaled, turned and mirrored, exactly.
#![tactic(auto)]

mod exact;
mod maps;
mod shapes;
mod surface;

pub use exact::decimals::ExactDecimal;
pub use maps::axes::{Angle, Axis};
pub use maps::laws::maps_are_applied_one_after_another;
pub use maps::matrices::AffineMap;
pub use maps::steps::{Step, StepsFault};
pub use maps::stepwise::map_of_steps;
pub use shapes::boxes::box_between;
pub use shapes::cylinders::cylinder;
pub use shapes::fault::ShapeFault;
pub use shapes::laws::boxes_and_cylinders_are_closed;
pub use surface::image::{facets_under, transform_surface};
pub use surface::transformed::{TransformFault, TransformedPoint, TransformedSurface};
