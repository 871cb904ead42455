// Which way three points of a plane turn.
ghost use Rattle.std.specs.Prelude.{◌≡◌};
ghost use Rattle.mesh_point.specs.Numbers.{local_triple};
ghost use Rattle.mesh_point.specs.Triples.{local_orientation};
ghost use Rattle.mesh_point.specs.Turns.{orientation};

use crate::floor_turns::floor_turn;
use crate::local_point::LocalPoint;
use crate::localizing::{least, local_point};
use crate::plane_point::PlanePoint;
use crate::short_turns::turn_in_short;
use crate::vast_turns::vast_turn;
use ember_algebra::Sign;

// The turn of three points by all their numbers.
fn local_turn(p: &LocalPoint, q: &LocalPoint, r: &LocalPoint) -> Sign
    ensures { result ≡ local_orientation (local_triple p.now) (local_triple q.now) (local_triple r.now) }
{
    match turn_in_short(p, q, r) {
        Some(sign) => sign,
        None => vast_turn(p, q, r),
    }
}

// The same, where the floors don't decide it.
fn exact_turn(p: &PlanePoint, q: &PlanePoint, r: &PlanePoint) -> Sign
    ensures { result ≡ orientation p.now q.now r.now }
{
    let i = least(p.floor_x, q.floor_x, r.floor_x);
    let j = least(p.floor_y, q.floor_y, r.floor_y);
    let a = local_point(p, i, j);
    let b = local_point(q, i, j);
    let c = local_point(r, i, j);
    local_turn(&a, &b, &c)
}

/// Which way the three points turn: `Pos` to the left, from the x axis to the y axis; `Neg` to the
/// right; `Zero` if they lie on one line. The floors of their coordinates decide it in 64 bits, unless
/// the triangle is thin; then 128 bits do if the points' numbers are short, and otherwise 512.
pub fn turn(p: &PlanePoint, q: &PlanePoint, r: &PlanePoint) -> Sign
    ensures { result ≡ orientation p.now q.now r.now }
{
    match floor_turn(p, q, r) {
        Some(sign) => sign,
        None => exact_turn(p, q, r),
    }
}
