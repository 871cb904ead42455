// The edges of a triangle seen along an axis: lines in the two other coordinates.
ghost use Rattle.std.specs.Prelude.{◌≡◌, ℕ, ℤ, ◌*ℤ◌, ◌+ℤ◌, ◌-ℤ◌, neg_ℤ};
ghost use Rattle.ember_algebra.specs.Size.{Small};
ghost use Rattle.ember_algebra.specs.Sign.{sgn};
ghost use Rattle.ember_model.specs.declared.point.Spot.{Spot};
ghost use Rattle.ember_model.specs.Limits.{broad_limit};
ghost use Rattle.ember_model.specs.Within.{IsCornerWithin, IsEdgeWithin};
ghost use Rattle.ember_width.specs.Broad.{most_short};
ghost use Rattle.ember_width.specs.BroadPoints.{short_spot};
ghost use Rattle.ember_box.specs.Aabbs.{most_wall};
ghost use Rattle.ember_trace.specs.LineSizes.{most_step, most_moved, most_product};
ghost use Rattle.ember_trace.specs.Edges.{edge_times, fixed_edge, side_at, side_seen};

use crate::edge_line::EdgeLine;
use ember_algebra::{Sign, sign_of};
use ember_model::{Axis, Corner, Plane};
use ember_width::ShortPoint;

// The line through two points, times a sign.
fn line_through(from_p: i32, from_q: i32, to_p: i32, to_q: i32, s: i64) -> EdgeLine
    requires from_p { Small broad_limit from_p }
    requires from_q { Small broad_limit from_q }
    requires to_p { Small broad_limit to_p }
    requires to_q { Small broad_limit to_q }
    requires s { Small 1 s }
    ensures dq { result.dq ≡ s *ℤ (to_q -ℤ from_q) }
    ensures dp { result.dp ≡ s *ℤ (to_p -ℤ from_p) }
    ensures d { result.d ≡ s *ℤ (to_q -ℤ from_q) *ℤ from_p -ℤ s *ℤ (to_p -ℤ from_p) *ℤ from_q }
{
    let dq = s * (to_q as i64 - from_q as i64);
    let dp = s * (to_p as i64 - from_p as i64);
    let d = dq * from_p as i64 - dp * from_q as i64;
    EdgeLine { dq, dp, d }
}

// The product of a line's number and a number of a short point, by one multiplication of 64 bits by
// 64.
fn product(a: i64, x: i64) -> i128
    requires a { Small most_moved a }
    requires x { Small most_short x }
    ensures value { result ≡ a *ℤ x }
    ensures small { Small most_product result }
{
    a as i128 * x as i128
}

// The side of the line on which the point (p / w, q / w) lies.
fn line_side(line: &EdgeLine, p: i64, q: i64, w: i64) -> Sign
    requires p { Small most_short p }
    requires q { Small most_short q }
    requires w { Small most_short w }
    ensures { result ≡ sgn (line.now.dq *ℤ p -ℤ line.now.dp *ℤ q -ℤ line.now.d *ℤ w) }
{
    sign_of(product(line.dq, p) - product(line.dp, q) - product(line.d, w))
}

/// The plane through the edge from `u` to `v` and parallel to the axis `k`, times the sign `s`, as
/// a line in the two other coordinates.
pub fn line_of_edge(u: &Corner, v: &Corner, k: Axis, s: i64) -> EdgeLine
    requires from { IsCornerWithin broad_limit u.now }
    requires to { IsCornerWithin broad_limit v.now }
    requires s { Small 1 s }
    ensures { (m : Spot) → side_seen result k m ≡ side_at (edge_times u.now v.now k s) m }
{
    match k {
        Axis::X => line_through(u.y, u.z, v.y, v.z, s),
        Axis::Y => line_through(u.z, u.x, v.z, v.x, s),
        Axis::Z => line_through(u.x, u.y, v.x, v.y, s),
    }
}

/// The side of a line on which the short point `m` is, seen along the axis `k`.
pub fn side_of_line(line: &EdgeLine, k: Axis, m: &ShortPoint) -> Sign
    ensures { result ≡ side_seen line.now k (short_spot m.now) }
{
    match k {
        Axis::X => line_side(line, m.y, m.z, m.w),
        Axis::Y => line_side(line, m.z, m.x, m.w),
        Axis::Z => line_side(line, m.x, m.y, m.w),
    }
}

/// The plane through an edge parallel to the axis, times a sign.
pub fn edge_plane_times(u: &Corner, v: &Corner, k: Axis, s: i64) -> Plane
    requires from { IsCornerWithin broad_limit u.now }
    requires to { IsCornerWithin broad_limit v.now }
    requires s { Small 1 s }
    ensures value { result ≡ edge_times u.now v.now k s }
    ensures within { (m : ℕ) → IsCornerWithin m u.now → IsCornerWithin m v.now → IsEdgeWithin m result }
{
    match k {
        Axis::X => {
            let line = line_through(u.y, u.z, v.y, v.z, s);
            Plane {
                a: 0,
                b: line.dq,
                c: -line.dp,
                d: line.d,
            }
        }
        Axis::Y => {
            let line = line_through(u.z, u.x, v.z, v.x, s);
            Plane {
                a: -line.dp,
                b: 0,
                c: line.dq,
                d: line.d,
            }
        }
        Axis::Z => {
            let line = line_through(u.x, u.y, v.x, v.y, s);
            Plane {
                a: line.dq,
                b: -line.dp,
                c: 0,
                d: line.d,
            }
        }
    }
}

// A point of an axis: the coordinate x at which `n x - e` is 0. `e` is a line's `d`, plus or minus
// an entry of it times a coordinate.
#[derive(Clone, Copy)]
struct AxisPoint {
    n: i64,
    e: i64,
    ghost small_n: { Small most_step n },
    ghost small_e: { Small most_moved e },
}

// Where the line has p = `at`: a point of the axis of q.
fn axis_point_at_p(line: &EdgeLine, at: i32) -> AxisPoint
    requires { Small most_wall at }
    ensures n { result.n ≡ neg_ℤ line.now.dp }
    ensures e { result.e ≡ line.now.d -ℤ line.now.dq *ℤ at }
{
    AxisPoint {
        n: -line.dp,
        e: line.d - line.dq * at as i64,
    }
}

// Where the line has q = `at`: a point of the axis of p.
fn axis_point_at_q(line: &EdgeLine, at: i32) -> AxisPoint
    requires { Small most_wall at }
    ensures n { result.n ≡ line.now.dq }
    ensures e { result.e ≡ line.now.d +ℤ line.now.dp *ℤ at }
{
    AxisPoint {
        n: line.dq,
        e: line.d + line.dp * at as i64,
    }
}

// The side of the point on which the coordinate x / w lies.
fn axis_point_side(point: &AxisPoint, x: i64, w: i64) -> Sign
    requires x { Small most_short x }
    requires w { Small most_short w }
    ensures { result ≡ sgn (point.now.n *ℤ x -ℤ point.now.e *ℤ w) }
{
    sign_of(product(point.n, x) - product(point.e, w))
}

/// The side of the plane through the edge from `u` to `v` and parallel to the second axis of a path
/// with this main axis, times the sign `s`, on which the short point `m` is, moved to `at` along
/// the main axis. `fixed_edge` fixes the coordinate along the second axis too, to `by`. The plane
/// has no entry along this axis, so that changes nothing: the clause holds for every `by`.
pub fn moved_edge_side(u: &Corner, v: &Corner, main: Axis, s: i64, at: i32, m: &ShortPoint) -> Sign
    requires from { IsCornerWithin broad_limit u.now }
    requires to { IsCornerWithin broad_limit v.now }
    requires s { Small 1 s }
    requires at { Small most_wall at }
    ensures { (by : ℤ) → result ≡ side_at (fixed_edge u.now v.now main s by at) (short_spot m.now) }
{
    match main {
        Axis::X => axis_point_side(
            &axis_point_at_p(&line_through(u.x, u.y, v.x, v.y, s), at),
            m.y,
            m.w,
        ),
        Axis::Y => axis_point_side(
            &axis_point_at_q(&line_through(u.x, u.y, v.x, v.y, s), at),
            m.x,
            m.w,
        ),
        Axis::Z => axis_point_side(
            &axis_point_at_p(&line_through(u.z, u.x, v.z, v.x, s), at),
            m.x,
            m.w,
        ),
    }
}
