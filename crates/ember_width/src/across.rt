// On which side of a plane that lies across an axis a point lies: two products suffice.
ghost use Rattle.std.specs.Prelude.{◌≡◌, ◌-ℤ◌, ◌*ℤ◌};
ghost use Rattle.ember_algebra.specs.Size.{Small};
ghost use Rattle.ember_algebra.specs.Sign.{sgn};
ghost use Rattle.ember_model.specs.Limits.{valid_normal_limit, valid_constant_limit, meet_limit, meet_weight_limit};
ghost use Rattle.ember_model.specs.Planes.{value_at};
ghost use Rattle.ember_model.specs.Valid.{IsValidPlane};
ghost use Rattle.ember_point.specs.Points.{spot_of};
ghost use Rattle.ember_width.specs.Levels.{IsAlong};

use ember_algebra::{Sign, sign_of};
use ember_model::{Axis, Plane};
use ember_point::Meet;

// On which side of a plane that is across an axis a point lies. `a` is the plane's entry along the
// axis and `d` its constant; `x` is the point's coordinate along the axis and `w` its weight.
#[inline]
fn side_by_coordinate(a: i64, d: i64, x: i128, w: i128) -> Sign
    requires a { Small valid_normal_limit a }
    requires d { Small valid_constant_limit d }
    requires x { Small meet_limit x }
    requires w { Small meet_weight_limit w }
    ensures { result ≡ sgn (a *ℤ x -ℤ d *ℤ w) }
{
    sign_of(a as i128 * x - d as i128 * w)
}

/// On which side of a plane of the narrow grid that lies across this axis the point lies.
#[inline]
pub fn narrow_side_across(p: &Plane, axis: Axis, m: &Meet) -> Sign
    requires plane { IsValidPlane p.now }
    requires axis { IsAlong axis p.now }
    ensures { result ≡ sgn (value_at p.now (spot_of m.now)) }
{
    match axis {
        Axis::X => side_by_coordinate(p.a, p.d, m.x, m.w),
        Axis::Y => side_by_coordinate(p.b, p.d, m.y, m.w),
        Axis::Z => side_by_coordinate(p.c, p.d, m.z, m.w),
    }
}
