// Points of space as they are seen along an axis.
ghost use Rattle.std.specs.Prelude.{◌≡◌};
ghost use Rattle.ember_algebra.specs.Sign.{sgn};
ghost use Rattle.mesh_point.specs.SpacePoints.{spot_of, seen_along};
ghost use Rattle.mesh_point.specs.Turns.{numbers_of, rows};

use crate::plane_point::PlanePoint;
use crate::space_point::SpacePoint;
use crate::turns::turn;
use ember_algebra::Sign;
use ember_model::Axis;

/// The point without its coordinate along the axis: the other two in turn, as y and z along x.
pub fn seen_along(p: &SpacePoint, axis: Axis) -> PlanePoint
    ensures { numbers_of result ≡ seen_along axis (spot_of p.now) }
{
    match axis {
        Axis::X => PlanePoint {
            floor_x: p.floor_y,
            floor_y: p.floor_z,
            x: p.y,
            y: p.z,
            w: p.w,
        },
        Axis::Y => PlanePoint {
            floor_x: p.floor_z,
            floor_y: p.floor_x,
            x: p.z,
            y: p.x,
            w: p.w,
        },
        Axis::Z => PlanePoint {
            floor_x: p.floor_x,
            floor_y: p.floor_y,
            x: p.x,
            y: p.y,
            w: p.w,
        },
    }
}

/// Which way three points turn, seen along the axis.
pub fn turn_along(axis: Axis, u: &SpacePoint, v: &SpacePoint, w: &SpacePoint) -> Sign
    ensures { result ≡ sgn (rows (seen_along axis (spot_of u.now)) (seen_along axis (spot_of v.now))
        (seen_along axis (spot_of w.now))) }
{
    turn(
        &seen_along(u, axis),
        &seen_along(v, axis),
        &seen_along(w, axis),
    )
}
