//! Points of meshes by the unit cubes of the grid in which they lie: which way they turn, how they
//! follow one another along an axis, and on which sides of planes they lie.
#![tactic(auto)]

mod comparing;
mod coordinate;
mod floor_turns;
mod fractions;
mod local_point;
mod localizing;
mod meets;
mod order;
mod plane_point;
mod seen;
mod short_triple;
mod short_turns;
mod sides;
mod space_point;
mod turns;
mod vast_triple;
mod vast_turns;
mod whole;

pub use coordinate::Coordinate;
pub use meets::point_of_meet;
pub use plane_point::PlanePoint;
pub use seen::{seen_along, turn_along};
pub use sides::side;
pub use space_point::SpacePoint;
pub use turns::turn;
pub use whole::whole_point;
