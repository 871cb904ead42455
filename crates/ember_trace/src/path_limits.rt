// How bounding boxes are compared with the limits of a path.
ghost use Rattle.std.specs.Prelude.{◌≡◌, ◌<◌};
ghost use Rattle.std.specs.Int.{int_max};
ghost use Rattle.ember_algebra.specs.Size.{Small};
ghost use Rattle.ember_box.specs.Boxes.{axis_index};
ghost use Rattle.ember_box.specs.Aabbs.{most_wall};
ghost use Rattle.ember_trace.specs.Paths.{path_of, HasAxes, coordinate};
ghost use Rattle.ember_trace.specs.Lines.{contains_above};
ghost use Rattle.ember_trace.specs.Crossings.{begins_by, may_contain, floor_in_root, AreLimits};

use crate::limits::Limits;
use crate::path::Path;
use crate::vertices::coordinate;
use ember_box::Interval;
use ember_model::Axis;
use ember_width::Width;

/// Whether `at` plus any small number above 0 is strictly between the ends of the interval.
pub fn contains_above(interval: &Interval, at: i32) -> bool
    ensures { result ≡ contains_above interval.now at }
{
    interval.low <= at && at < interval.high
}

/// Whether the interval contains a number with this floor.
pub fn may_contain(interval: &Interval, floor: i32) -> bool
    ensures { result ≡ may_contain interval.now floor }
{
    interval.low <= floor && floor <= interval.high
}

/// Whether the interval begins at the whole number or below.
pub fn begins_by(interval: &Interval, at: i32) -> bool
    ensures { result ≡ begins_by interval.now at }
{
    interval.low <= at
}

/// The index of an axis in the order x, y, z.
pub fn index_of(k: Axis) -> usize
    ensures value { result ≡ axis_index k }
    ensures within { result < 3 }
{
    match k {
        Axis::X => 0,
        Axis::Y => 1,
        Axis::Z => 2,
    }
}

// The floor of a coordinate of the path's end, moved into the root.
fn floor_in_root<W: Width>(way: &Path<W>, k: Axis) -> i32
    ensures value { result ≡ floor_in_root (path_of way.now) k }
    ensures small { Small most_wall result }
{
    W::floor_in_root(&way.first_corner, k)
}

// The greater of the coordinate of the path's start along an axis and the moved floor of its end.
fn farthest<W: Width>(way: &Path<W>, k: Axis) -> i32
    ensures value { result ≡ int_max (floor_in_root (path_of way.now) k) (coordinate way.now.lo k) }
    ensures small { Small most_wall result }
{
    floor_in_root(way, k).max(coordinate(way.lo, k))
}

/// The limits of a path.
pub fn limits_of<W: Width>(way: &Path<W>) -> Limits
    requires { HasAxes (path_of way.now) }
    ensures { AreLimits (path_of way.now) result }
{
    let first_index = index_of(way.first_axis);
    let second_index = index_of(way.second_axis);
    let main_index = index_of(way.main);
    let start = coordinate(way.lo, way.main);
    let first = floor_in_root(way, way.first_axis);
    let second = floor_in_root(way, way.second_axis);
    let farthest_second = farthest(way, way.second_axis);
    let farthest_main = farthest(way, way.main);
    Limits {
        first_index,
        second_index,
        main_index,
        start,
        first,
        second,
        farthest_second,
        farthest_main,
    }
}
