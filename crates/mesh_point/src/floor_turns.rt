// Turns of points by the floors of their coordinates, which decide nearly all of them.
ghost use Rattle.std.specs.Prelude.{◌≡◌, ◌^◌, ◌<◌, ◌-ℤ◌, IfSome};
ghost use Rattle.ember_algebra.specs.Size.{Small};
ghost use Rattle.mesh_point.specs.FloorTurns.{IsClearTurn, most_steps, most_turn, turn_of, most_change};
ghost use Rattle.mesh_point.specs.Turns.{orientation};

use crate::plane_point::PlanePoint;
use ember_algebra::Sign;

// How far it is from one floor to another.
fn steps(from: i32, to: i32) -> i64
    ensures value { result ≡ to -ℤ from }
    ensures small { Small most_steps result }
{
    to as i64 - from as i64
}

// The turn of the vectors (a, b) and (c, d).
fn turn_of(a: i64, b: i64, c: i64, d: i64) -> i128
    requires a { Small most_steps a }
    requires b { Small most_steps b }
    requires c { Small most_steps c }
    requires d { Small most_steps d }
    ensures value { result ≡ turn_of a b c d }
    ensures small { Small most_turn result }
{
    a as i128 * d as i128 - b as i128 * c as i128
}

// How far the remainders of the points can move it at most.
fn most_change(a: i64, b: i64, c: i64, d: i64) -> u64
    requires a { Small most_steps a }
    requires b { Small most_steps b }
    requires c { Small most_steps c }
    requires d { Small most_steps d }
    ensures value { result ≡ most_change a b c d }
    ensures small { result < 2 ^ 40 }
{
    a.unsigned_abs() + b.unsigned_abs() + c.unsigned_abs() + d.unsigned_abs() + 2
}

// Which way the vectors (a, b) and (c, d) turn, if they turn so far that the remainders of the
// points can't change it.
fn clear_turn(a: i64, b: i64, c: i64, d: i64) -> Option<Sign>
    requires a { Small most_steps a }
    requires b { Small most_steps b }
    requires c { Small most_steps c }
    requires d { Small most_steps d }
    ensures { IfSome result (λ s. IsClearTurn a b c d s) }
{
    let turn = turn_of(a, b, c, d);
    let most = most_change(a, b, c, d) as i128;
    if turn > most {
        Some(Sign::Pos)
    } else if turn < -most {
        Some(Sign::Neg)
    } else {
        None
    }
}

/// Which way the three points turn, if the floors of their coordinates decide it.
pub fn floor_turn(p: &PlanePoint, q: &PlanePoint, r: &PlanePoint) -> Option<Sign>
    ensures { IfSome result (λ s. s ≡ orientation p.now q.now r.now) }
{
    let right_q = steps(p.floor_x, q.floor_x);
    let up_q = steps(p.floor_y, q.floor_y);
    let right_r = steps(p.floor_x, r.floor_x);
    let up_r = steps(p.floor_y, r.floor_y);
    clear_turn(right_q, up_q, right_r, up_r)
}
