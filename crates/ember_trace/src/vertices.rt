// On which sides of a plane the vertices of a path lie.
ghost use Rattle.std.specs.Prelude.{◌≡◌, ◌*◌, ◌&&◌, true, All};
ghost use Rattle.ember_algebra.specs.Size.{Small};
ghost use Rattle.ember_model.specs.Within.{IsSupportWithin};
ghost use Rattle.ember_point.specs.Points.{slid};
ghost use Rattle.ember_width.specs.Broad.{IsBroadPlane};
ghost use Rattle.ember_box.specs.Boxes.{in_steps};
ghost use Rattle.ember_box.specs.Aabbs.{most_wall};
ghost use Rattle.ember_trace.specs.Paths.{path_of, coordinate, inside_side, side_at_start, side_at_end, side_after_first, side_after_second, slid_to_lo, first_of, second_of, IsPathTo};

use crate::path::Path;
use ember_algebra::Sign;
use ember_box::{Cell, lo_on};
use ember_model::{Axis, Plane, main_axis};
use ember_poly::{Ring, corners, support};
use ember_ref::side_beside;
use ember_width::Width;

/// The first of the two other axes.
pub fn first_of(k: Axis) -> Axis
    ensures { result ≡ first_of k }
{
    match k {
        Axis::X => Axis::Y,
        _ => Axis::X,
    }
}

/// The second of the two other axes.
pub fn second_of(k: Axis) -> Axis
    ensures { result ≡ second_of k }
{
    match k {
        Axis::Z => Axis::Y,
        _ => Axis::Z,
    }
}

// Whether all three points are short.
fn are_short<W: Width>(first: &W::Point, second: &W::Point, third: &W::Point) -> bool
    ensures { result ≡ W.short first.now && (W.short second.now && W.short third.now) }
{
    W::is_short(first) && (W::is_short(second) && W::is_short(third))
}

/// The path to the region from beside the least corner of the box.
pub fn path_to<'a, W: Width>(c: &Cell, r: &'a Ring<W>) -> Path<'a, W>
    ensures { IsPathTo W.fine (in_steps W.scale c.now) r.now (path_of result) }
{
    let main = main_axis(&support(r));
    let ring_corners = corners(r);
    let first = ring_corners[0];
    let second = ring_corners[1];
    let third = ring_corners[2];
    Path {
        lo: lo_on::<W>(c),
        first_axis: first_of(main),
        second_axis: second_of(main),
        main,
        first_corner: first,
        second_corner: second,
        third_corner: third,
        is_short: are_short::<W>(&first, &second, &third),
        region: r,
    }
}

/// The coordinate of a point along an axis, in steps.
pub fn coordinate(at: [i32; 3], k: Axis) -> i32
    requires { All (Small most_wall) at }
    ensures value { result ≡ coordinate at k }
    ensures small { Small most_wall result }
{
    match k {
        Axis::X => at[0],
        Axis::Y => at[1],
        Axis::Z => at[2],
    }
}

/// The side of a plane on which the inside point of the region lies: that of the first of three
/// corners that isn't on the plane.
pub fn inside_side<W: Width>(
    p: &Plane,
    first: &W::Point,
    second: &W::Point,
    third: &W::Point,
) -> Sign
    requires { W.IsPlane p.now }
    ensures { result ≡ inside_side p.now (W.spot first.now) (W.spot second.now) (W.spot third.now) }
{
    match W::side(p, first) {
        Sign::Zero => match W::side(p, second) {
            Sign::Zero => W::side(p, third),
            s => s,
        },
        s => s,
    }
}

// The side of the plane on which the inside point lies, in fewer steps, for short corners.
fn short_inside_side<W: Width>(
    p: &Plane,
    first: &W::Point,
    second: &W::Point,
    third: &W::Point,
) -> Sign
    requires plane { W.IsPlane p.now }
    requires first { W.short first.now ≡ true }
    requires second { W.short second.now ≡ true }
    requires third { W.short third.now ≡ true }
    ensures { result ≡ inside_side p.now (W.spot first.now) (W.spot second.now) (W.spot third.now) }
{
    match W::short_side(p, first) {
        Sign::Zero => match W::short_side(p, second) {
            Sign::Zero => W::short_side(p, third),
            s => s,
        },
        s => s,
    }
}

// The plane with the coordinate along an axis fixed to `at`: a plane parallel to the axis that has
// the same points with that coordinate.
fn slide(p: &Plane, k: Axis, at: i32) -> Plane
    requires plane { IsBroadPlane p.now }
    requires place { Small most_wall at }
    requires stays { IsBroadPlane (slid p.now k at) }
    ensures { result ≡ slid p.now k at }
{
    let at = at as i64;
    match k {
        Axis::X => Plane {
            a: 0,
            b: p.b,
            c: p.c,
            d: p.d - p.a * at,
        },
        Axis::Y => Plane {
            a: p.a,
            b: 0,
            c: p.c,
            d: p.d - p.b * at,
        },
        Axis::Z => Plane {
            a: p.a,
            b: p.b,
            c: 0,
            d: p.d - p.c * at,
        },
    }
}

// The plane with the coordinate along an axis fixed to that of `lo`, the least corner of the box.
// The start is as close to `lo` as it has to be (path.rt).
fn slid_to_lo<W: Width>(way: &Path<W>, k: Axis, p: &Plane) -> Plane
    requires plane { IsBroadPlane p.now }
    requires stays { IsBroadPlane (slid_to_lo (path_of way.now) k p.now) }
    ensures { result ≡ slid_to_lo (path_of way.now) k p.now }
{
    slide(p, k, coordinate(way.lo, k))
}

impl<W: Width> Path<'_, W> {
    /// The side of a plane on which the path begins: that of the reference point.
    pub fn side_at_start(&self, p: &Plane) -> Sign
        requires { IsSupportWithin W.corner p.now }
        ensures { result ≡ side_at_start (path_of self.now) p.now }
    {
        side_beside(p, self.lo)
    }

    /// The side of a plane on which the path's end, the region's inside point, lies.
    pub fn side_at_end(&self, p: &Plane) -> Sign
        requires { W.IsPlane p.now }
        ensures { result ≡ side_at_end (path_of self.now) p.now }
    {
        if self.is_short {
            short_inside_side::<W>(
                p,
                &self.first_corner,
                &self.second_corner,
                &self.third_corner,
            )
        } else {
            inside_side::<W>(
                p,
                &self.first_corner,
                &self.second_corner,
                &self.third_corner,
            )
        }
    }

    /// The side of a plane on which the first segment ends, at a point with the first coordinate of
    /// the path's end and the other two of its start. The plane with these two fixed to those of
    /// `lo` is `Zero` at all three corners only if it has no entry along the first axis: the
    /// corners don't share that coordinate, since it isn't the main axis. Then the segment runs
    /// parallel to the plane, and ends on the side on which it starts.
    pub fn side_after_first(&self, p: &Plane) -> Sign
        requires { IsSupportWithin W.corner p.now }
        ensures { result ≡ side_after_first (path_of self.now) p.now }
    {
        let slid = slid_to_lo(self, self.second_axis, p);
        match self.side_at_end(&slid_to_lo(self, self.main, &slid)) {
            Sign::Zero => self.side_at_start(p),
            s => s,
        }
    }

    /// The side of a plane on which the second segment ends, at a point with the main coordinate of
    /// the path's start and the other two of its end. The plane with this one fixed to that of `lo`
    /// is `Zero` at all three corners only if it has no entry along the first and the second axis:
    /// the corners, seen along the main axis, aren't on one line. Then both segments run parallel
    /// to the plane, and end on the side on which the path starts.
    pub fn side_after_second(&self, p: &Plane) -> Sign
        requires { IsSupportWithin W.corner p.now }
        ensures { result ≡ side_after_second (path_of self.now) p.now }
    {
        match self.side_at_end(&slid_to_lo(self, self.main, p)) {
            Sign::Zero => self.side_at_start(p),
            s => s,
        }
    }
}
