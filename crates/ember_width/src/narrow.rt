// The narrow grid: meets in 128 bits.
ghost use Rattle.std.specs.Prelude.{◌^◌, pos};
ghost use Rattle.ember_model.specs.Limits.{narrow_limit};
ghost use Rattle.ember_model.specs.Valid.{IsValidPlane};
ghost use Rattle.ember_point.specs.Points.{spot_of, has_short_numbers};

use crate::across::narrow_side_across;
use crate::corners::narrow_point_at;
use crate::narrow_levels::narrow_level_point;
use crate::root_floors::narrow_floor_in_root;
use crate::short_numbers::numbers_of_narrow;
use crate::short_point::ShortPoint;
use crate::width::Width;
use ember_algebra::Sign;
use ember_model::{Axis, Corner, Plane};
use ember_point::Meet;

/// The narrow grid: corners of up to 2047 in size, 4095 positions along an axis.
pub struct Narrow;

impl Width for Narrow {
    ghost use Rattle.ember_width.specs.Laws.{narrow_planes, narrow_opposite, narrow_is_broad, narrow_limit_is_broad, narrow_normals, narrow_unit, narrow_steps, narrow_root, narrow_end};

    type Point = Meet;

    const UNIT: i32 = 1;

    ghost UNIT = { pos 1 };

    ghost scale = { 0 };

    ghost corner = { narrow_limit };

    ghost fine = { 2 ^ 27 };

    ghost IsPlane = { IsValidPlane };

    ghost spot = { spot_of };

    ghost short = { λ m. has_short_numbers (spot_of m) };

    ghost weighs = { λ m. m.valid.weight };

    ghost takes = { narrow_planes };

    ghost turns_round = { narrow_opposite };

    ghost is_broad = { narrow_is_broad };

    ghost at_most_broad = { narrow_limit_is_broad };

    ghost tells_apart = { narrow_normals };

    ghost unit_is = { narrow_unit };

    ghost few_steps = { narrow_steps };

    ghost holds = { narrow_root };

    ghost ends = { narrow_end };

    #[inline]
    fn meet(p: &Plane, q: &Plane, r: &Plane) -> Option<Meet> {
        ember_point::meet(p, q, r)
    }

    #[inline]
    fn side(p: &Plane, m: &Meet) -> Sign {
        ember_point::side(p, m)
    }

    #[inline]
    fn side_across(p: &Plane, axis: Axis, m: &Meet) -> Sign {
        narrow_side_across(p, axis, m)
    }

    #[inline]
    fn is_short(m: &Meet) -> bool {
        ember_point::has_short_numbers(m)
    }

    #[inline]
    fn short_side(p: &Plane, m: &Meet) -> Sign {
        ember_point::short_side(p, m)
    }

    #[inline]
    fn numbers(m: &Meet) -> ShortPoint {
        numbers_of_narrow(m)
    }

    #[inline]
    fn floor_in_root(m: &Meet, axis: Axis) -> i32 {
        narrow_floor_in_root(m, axis)
    }

    #[inline]
    fn is_in_root(at: i64) -> bool {
        -2048 <= at && at <= 2048
    }

    #[inline]
    fn level_point(p: &Plane, q: &Plane, axis: Axis, at: i64) -> Meet {
        narrow_level_point(p, q, axis, at)
    }

    #[inline]
    fn point_at(c: &Corner) -> Meet {
        narrow_point_at(c)
    }
}
