// Corners of the grid as points.
ghost use Rattle.std.specs.Prelude.{◌≡◌};
ghost use Rattle.ember_model.specs.Owners.{spot_of_corner};
ghost use Rattle.mesh_point.specs.SpacePoints.{spot_of};

use crate::space_point::SpacePoint;
use ember_model::Corner;

/// A corner of the grid as a point: its coordinates are their own floors.
pub fn whole_point(c: &Corner) -> SpacePoint
    ensures { spot_of result ≡ spot_of_corner c.now }
{
    SpacePoint {
        floor_x: c.x,
        floor_y: c.y,
        floor_z: c.z,
        x: 0,
        y: 0,
        z: 0,
        w: 1,
    }
}
