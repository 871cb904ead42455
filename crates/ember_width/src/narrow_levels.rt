// Where planes of the narrow grid meet a wall of a box: a plane across an axis. 64 bits hold most
// numbers there.
ghost use Rattle.std.specs.Prelude.{◌≡◌, pos, ◌-ℤ◌, ◌*ℤ◌, ◌<ℤ◌};
ghost use Rattle.ember_algebra.specs.Size.{Small};
ghost use Rattle.ember_model.specs.Limits.{valid_normal_limit, valid_constant_limit};
ghost use Rattle.ember_model.specs.Valid.{IsValidPlane};
ghost use Rattle.ember_point.specs.Points.{spot_of};
ghost use Rattle.ember_width.specs.Levels.{line_a, line_b, line_d, turn_at, point_at, level_meet};
ghost use Rattle.ember_width.specs.NarrowLevels.{most_place, most_line, most_turn, most_height, most_minor};

use ember_model::{Axis, Plane};
use ember_point::Meet;

// The line a u + b v = d w of a plane in a level, where u and v are the coordinates along the next
// two axes.
#[derive(Clone, Copy)]
struct Line {
    a: i64,
    b: i64,
    d: i64,
    ghost small_a: { Small valid_normal_limit a },
    ghost small_b: { Small valid_normal_limit b },
    ghost small_d: { Small most_line d },
}

// The constant of the plane's line, by its constant and its entry along the axis.
fn constant_at(d: i64, n: i64, at: i64) -> i64
    requires d { Small valid_constant_limit d }
    requires n { Small valid_normal_limit n }
    requires at { Small most_place at }
    ensures value { result ≡ d -ℤ n *ℤ at }
    ensures small { Small most_line result }
{
    d - n * at
}

// The line in which the plane meets the level.
fn line_of(p: &Plane, axis: Axis, at: i64) -> Line
    requires plane { IsValidPlane p.now }
    requires at { Small most_place at }
    ensures a { result.a ≡ line_a axis p.now }
    ensures b { result.b ≡ line_b axis p.now }
    ensures d { result.d ≡ line_d axis at p.now }
{
    match axis {
        Axis::X => Line {
            a: p.b,
            b: p.c,
            d: constant_at(p.d, p.a, at),
        },
        Axis::Y => Line {
            a: p.c,
            b: p.a,
            d: constant_at(p.d, p.b, at),
        },
        Axis::Z => Line {
            a: p.a,
            b: p.b,
            d: constant_at(p.d, p.c, at),
        },
    }
}

// Positive if the line `first` turns to `second` counter-clockwise.
fn turn(first: &Line, second: &Line) -> i64
    ensures value { result ≡ first.now.a *ℤ second.now.b -ℤ first.now.b *ℤ second.now.a }
    ensures small { Small most_turn result }
{
    first.a * second.b - first.b * second.a
}

// The determinant `a d - b c` of constants of lines, `a` and `c`, and of entries.
fn minor(a: i64, b: i64, c: i64, d: i64) -> i128
    requires a { Small most_line a }
    requires b { Small valid_normal_limit b }
    requires c { Small most_line c }
    requires d { Small valid_normal_limit d }
    ensures value { result ≡ a *ℤ d -ℤ b *ℤ c }
    ensures small { Small most_minor result }
{
    a as i128 * d as i128 - b as i128 * c as i128
}

// The level's coordinate times a weight.
fn coordinate_at(at: i64, w: i64) -> i64
    requires at { Small most_place at }
    requires w { Small most_turn w }
    ensures value { result ≡ at *ℤ w }
    ensures small { Small most_height result }
{
    at * w
}

// The point with the coordinate `t` along the axis, and `u` and `v` along the next two, all over
// the weight `w`.
fn point_along(axis: Axis, t: i64, u: i128, v: i128, w: i64) -> Meet
    requires t { Small most_height t }
    requires u { Small most_minor u }
    requires v { Small most_minor v }
    requires w { Small most_turn w }
    requires weight { pos 0 <ℤ w }
    ensures { spot_of result ≡ point_at axis t u v w }
{
    let t = t as i128;
    let w = w as i128;
    match axis {
        Axis::X => Meet {
            x: t,
            y: u,
            z: v,
            w,
        },
        Axis::Y => Meet {
            x: v,
            y: t,
            z: u,
            w,
        },
        Axis::Z => Meet {
            x: u,
            y: v,
            z: t,
            w,
        },
    }
}

/// The point in which two planes meet the level with the coordinate `at` along the axis. Requires
/// that the line of `p` in the level turns to that of `q` counter-clockwise.
pub fn narrow_level_point(p: &Plane, q: &Plane, axis: Axis, at: i64) -> Meet
    requires p { IsValidPlane p.now }
    requires q { IsValidPlane q.now }
    requires at { Small most_place at }
    requires turns { pos 0 <ℤ turn_at axis p.now q.now }
    ensures { spot_of result ≡ level_meet axis at p.now q.now }
{
    let g = line_of(p, axis, at);
    let h = line_of(q, axis, at);
    let w = turn(&g, &h);
    let t = coordinate_at(at, w);
    let u = minor(g.d, g.b, h.d, h.b);
    let v = minor(h.d, h.a, g.d, g.a);
    point_along(axis, t, u, v, w)
}
