// The broad grid: meets in 64, 128 or 256 bits.
ghost use Rattle.std.specs.Prelude.{◌^◌, pos};
ghost use Rattle.ember_model.specs.Limits.{broad_limit};
ghost use Rattle.ember_width.specs.Broad.{IsBroadPlane};
ghost use Rattle.ember_width.specs.BroadPoints.{spot_of, is_short};

use crate::broad_point::BroadPoint;
use crate::corners::broad_point_at;
use crate::levels::broad_level_point;
use crate::meeting::broad_meet;
use crate::root_floors::broad_floor_in_root;
use crate::short_numbers::{is_short, numbers_of_short};
use crate::short_point::ShortPoint;
use crate::sides::broad_side;
use crate::width::Width;
use ember_algebra::Sign;
use ember_model::{Axis, Corner, Plane};

/// The broad grid: corners of up to 524,287 in size, 1,048,575 positions along an axis.
pub struct Broad;

impl Width for Broad {
    ghost use Rattle.ember_width.specs.Laws.{broad_planes, broad_opposite, broad_is_broad, broad_limit_is_broad, broad_normals, broad_unit, broad_steps, broad_root, broad_end, broad_weighs};

    type Point = BroadPoint;

    const UNIT: i32 = 256;

    ghost UNIT = { pos 256 };

    ghost scale = { 8 };

    ghost corner = { broad_limit };

    ghost fine = { 2 ^ 43 };

    ghost IsPlane = { IsBroadPlane };

    ghost spot = { spot_of };

    ghost short = { is_short };

    ghost weighs = { broad_weighs };

    ghost takes = { broad_planes };

    ghost turns_round = { broad_opposite };

    ghost is_broad = { broad_is_broad };

    ghost at_most_broad = { broad_limit_is_broad };

    ghost tells_apart = { broad_normals };

    ghost unit_is = { broad_unit };

    ghost few_steps = { broad_steps };

    ghost holds = { broad_root };

    ghost ends = { broad_end };

    fn meet(p: &Plane, q: &Plane, r: &Plane) -> Option<BroadPoint> {
        broad_meet(p, q, r)
    }

    fn side(p: &Plane, m: &BroadPoint) -> Sign {
        broad_side(p, m)
    }

    fn side_across(p: &Plane, _axis: Axis, m: &BroadPoint) -> Sign {
        broad_side(p, m)
    }

    fn is_short(m: &BroadPoint) -> bool {
        is_short(m)
    }

    fn short_side(p: &Plane, m: &BroadPoint) -> Sign {
        broad_side(p, m)
    }

    fn numbers(m: &BroadPoint) -> ShortPoint {
        numbers_of_short(m)
    }

    fn floor_in_root(m: &BroadPoint, axis: Axis) -> i32 {
        broad_floor_in_root(m, axis)
    }

    fn is_in_root(at: i64) -> bool {
        -524288 <= at && at <= 524288
    }

    fn level_point(p: &Plane, q: &Plane, axis: Axis, at: i64) -> BroadPoint {
        broad_level_point(p, q, axis, at)
    }

    fn point_at(c: &Corner) -> BroadPoint {
        broad_point_at(c)
    }
}
