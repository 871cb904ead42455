// Corners as points with the weight 1.
ghost use Rattle.std.specs.Prelude.{◌≡◌};
ghost use Rattle.ember_model.specs.Limits.{broad_limit};
ghost use Rattle.ember_model.specs.Owners.{spot_of_corner};
ghost use Rattle.ember_model.specs.Valid.{IsValidCorner};
ghost use Rattle.ember_model.specs.Within.{IsCornerWithin};
ghost use Rattle.ember_point.specs.Points.{spot_of};
ghost use Rattle.ember_width.specs.BroadPoints.{spot_of as broad_spot_of};

use crate::broad_point::BroadPoint;
use crate::short_point::ShortPoint;
use ember_model::Corner;
use ember_point::Meet;

/// A corner of the narrow grid as a point.
pub fn narrow_point_at(c: &Corner) -> Meet
    requires { IsValidCorner c.now }
    ensures { spot_of result ≡ spot_of_corner c.now }
{
    Meet {
        x: c.x as i128,
        y: c.y as i128,
        z: c.z as i128,
        w: 1,
    }
}

/// A corner of the broad grid as a point.
pub fn broad_point_at(c: &Corner) -> BroadPoint
    requires { IsCornerWithin broad_limit c.now }
    ensures { broad_spot_of result ≡ spot_of_corner c.now }
{
    BroadPoint::Short(ShortPoint {
        x: c.x as i64,
        y: c.y as i64,
        z: c.z as i64,
        w: 1,
    })
}
