// The points of the broad grid.

use crate::far_point::FarPoint;
use crate::floor_point::FloorPoint;
use crate::short_point::ShortPoint;

/// A point in which three planes of the broad grid meet. Short numbers are kept short; otherwise
/// the unit cube that contains the point decides most sides.
#[derive(Clone, Copy, Debug)]
pub enum BroadPoint {
    Short(ShortPoint),
    Floored(FloorPoint),
    Far(FarPoint),
}
