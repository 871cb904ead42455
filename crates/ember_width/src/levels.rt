// Where planes of the broad grid meet a wall of a box: a plane across an axis. 128 bits hold all
// numbers there.
ghost use Rattle.std.specs.Prelude.{◌≡◌, ◌*◌, ℤ, pos, ◌-ℤ◌, ◌*ℤ◌, ◌<ℤ◌};
ghost use Rattle.ember_algebra.specs.Size.{Small};
ghost use Rattle.ember_width.specs.Broad.{IsBroadPlane, most_normal, most_constant};
ghost use Rattle.ember_width.specs.Broad.{most_floor, most_cross, most_line, most_minor};
ghost use Rattle.ember_width.specs.BroadPoints.{spot_of};
ghost use Rattle.ember_width.specs.Levels.{line_a, line_b, line_d, turn_at, point_at, level_meet};

use crate::broad_point::BroadPoint;
use crate::points::point_of;
use ember_model::{Axis, Plane};
use ember_wide::Wide;

// The line a u + b v = d w of a plane in a level, where u and v are the coordinates along the next
// two axes.
#[derive(Clone, Copy)]
struct Line {
    a: i64,
    b: i64,
    d: i64,
    ghost small_a: { Small most_normal a },
    ghost small_b: { Small most_normal b },
    ghost small_d: { Small most_line d },
}

// The constant of the plane's line, by its constant and its entry along the axis.
fn constant_at(d: i64, n: i64, at: i64) -> i64
    requires d { Small most_constant d }
    requires n { Small most_normal n }
    requires at { Small most_floor at }
    ensures value { result ≡ d -ℤ n *ℤ at }
    ensures small { Small most_line result }
{
    d - n * at
}

// The line in which the plane meets the level.
fn line_of(p: &Plane, axis: Axis, at: i64) -> Line
    requires plane { IsBroadPlane p.now }
    requires at { Small most_floor at }
    ensures a { result.a ≡ line_a axis p.now }
    ensures b { result.b ≡ line_b axis p.now }
    ensures d { result.d ≡ line_d axis at p.now }
{
    match axis {
        Axis::X => Line {
            a: p.b,
            b: p.c,
            d: constant_at(p.d, p.a, at),
        },
        Axis::Y => Line {
            a: p.c,
            b: p.a,
            d: constant_at(p.d, p.b, at),
        },
        Axis::Z => Line {
            a: p.a,
            b: p.b,
            d: constant_at(p.d, p.c, at),
        },
    }
}

// Positive if the line `first` turns to `second` counter-clockwise.
fn turn(first: &Line, second: &Line) -> i128
    ensures value { result ≡ first.now.a *ℤ second.now.b -ℤ first.now.b *ℤ second.now.a }
    ensures small { Small most_cross result }
{
    first.a as i128 * second.b as i128 - first.b as i128 * second.a as i128
}

// The determinant `a d - b c` of constants of lines, `a` and `c`, and of entries.
fn minor(a: i64, b: i64, c: i64, d: i64) -> i128
    requires a { Small most_line a }
    requires b { Small most_normal b }
    requires c { Small most_line c }
    requires d { Small most_normal d }
    ensures value { result ≡ a *ℤ d -ℤ b *ℤ c }
    ensures small { Small most_minor result }
{
    a as i128 * d as i128 - b as i128 * c as i128
}

// The level's coordinate times a weight.
fn coordinate_at(at: i64, w: i128) -> i128
    requires at { Small most_floor at }
    requires w { Small most_cross w }
    ensures value { result ≡ at *ℤ w }
    ensures small { Small most_minor result }
{
    at as i128 * w
}

// The point with the coordinate `t` along the axis, and `u` and `v` along the next two, all over
// the weight `w`.
fn point_along(axis: Axis, t: i128, u: i128, v: i128, w: i128) -> BroadPoint
    requires t { Small most_minor t }
    requires u { Small most_minor u }
    requires v { Small most_minor v }
    requires w { Small most_cross w }
    requires weight { pos 0 <ℤ w }
    ensures { spot_of result ≡ point_at axis t u v w }
{
    let x = Wide::product(t, 1);
    let y = Wide::product(u, 1);
    let z = Wide::product(v, 1);
    match axis {
        Axis::X => point_of(&x, &y, &z, w),
        Axis::Y => point_of(&z, &x, &y, w),
        Axis::Z => point_of(&y, &z, &x, w),
    }
}

/// The point in which two planes meet the level with the coordinate `at` along the axis. Requires
/// that the line of `p` in the level turns to that of `q` counter-clockwise.
pub fn broad_level_point(p: &Plane, q: &Plane, axis: Axis, at: i64) -> BroadPoint
    requires p { IsBroadPlane p.now }
    requires q { IsBroadPlane q.now }
    requires at { Small most_floor at }
    requires turns { pos 0 <ℤ turn_at axis p.now q.now }
    ensures { spot_of result ≡ level_meet axis at p.now q.now }
{
    let g = line_of(p, axis, at);
    let h = line_of(q, axis, at);
    let w = turn(&g, &h);
    let t = coordinate_at(at, w);
    let u = minor(g.d, g.b, h.d, h.b);
    let v = minor(h.d, h.a, g.d, g.a);
    point_along(axis, t, u, v, w)
}
