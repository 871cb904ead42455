// What lies before and after a region.
use ember_model::Vector;

/// The winding numbers directly before and after a region, along its main axis.
#[derive(Clone, Copy, Debug, PartialEq, Eq)]
pub struct Sides {
    pub before: Vector,
    pub after: Vector,
}
