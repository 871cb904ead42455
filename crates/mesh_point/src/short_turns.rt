// Turns of points with short numbers, in 128 bits.
ghost use Rattle.std.specs.Prelude.{◌≡◌, ◌+◌, ◌*◌, ◌^◌, ◌<◌, true, IfSome};
ghost use Rattle.mesh_point.specs.Triples.{breadth, diagonal_sum, local_orientation};
ghost use Rattle.mesh_point.specs.Numbers.{local_triple, short_triple};

use crate::local_point::LocalPoint;
use crate::order::sign_of_order;
use crate::short_triple::ShortTriple;
use ember_algebra::Sign;

// Points of at least this weight have no short numbers.
const HEAVY: u128 = 1 << 90;

// The numbers of a point, if its weight is below 2^90.
fn short_triple(p: &LocalPoint) -> Option<ShortTriple>
    ensures { IfSome result (λ t. short_triple t ≡ local_triple p.now) }
{
    if p.w >= HEAVY {
        return None;
    }
    Some(ShortTriple {
        x: u128::from(p.right) * p.w + p.x,
        y: u128::from(p.up) * p.w + p.y,
        w: p.w,
    })
}

// The sum of the three numbers.
fn breadth_of(t: &ShortTriple) -> u128
    ensures value { result ≡ breadth (short_triple t.now) }
    ensures positive { 0 < result }
{
    t.x + t.y + t.w
}

// Whether all numbers on the way to the two sums are below 2^128.
fn are_short(p: &ShortTriple, q: &ShortTriple, r: &ShortTriple) -> bool
    ensures { result ≡ true →
        breadth (short_triple p.now) * (breadth (short_triple q.now) * breadth (short_triple r.now)) < 2 ^ 128 }
{
    breadth_of(p).ilog2() + breadth_of(q).ilog2() + breadth_of(r).ilog2() <= 125
}

// The product of three numbers.
fn term(x: u128, y: u128, w: u128) -> u128
    requires fits { x * y * w < 2 ^ 128 }
    requires positive { 0 < w }
    ensures { result ≡ x * y * w }
{
    x * y * w
}

// The products along the diagonals.
fn diagonal_sum(p: &ShortTriple, q: &ShortTriple, r: &ShortTriple) -> u128
    requires { breadth (short_triple p.now) * (breadth (short_triple q.now) * breadth (short_triple r.now)) < 2 ^ 128 }
    ensures { result ≡ diagonal_sum (short_triple p.now) (short_triple q.now) (short_triple r.now) }
{
    term(p.x, q.y, r.w) + term(q.x, r.y, p.w) + term(r.x, p.y, q.w)
}

// The turn of three points by two sums of products.
fn short_turn(p: &ShortTriple, q: &ShortTriple, r: &ShortTriple) -> Sign
    requires { breadth (short_triple p.now) * (breadth (short_triple q.now) * breadth (short_triple r.now)) < 2 ^ 128 }
    ensures { result ≡ local_orientation (short_triple p.now) (short_triple q.now) (short_triple r.now) }
{
    sign_of_order(diagonal_sum(p, q, r).cmp(&diagonal_sum(r, q, p)))
}

/// The turn of three points, if 128 bits hold all numbers on the way to it.
pub fn turn_in_short(p: &LocalPoint, q: &LocalPoint, r: &LocalPoint) -> Option<Sign>
    ensures { IfSome result (λ s. s ≡ local_orientation (local_triple p.now) (local_triple q.now) (local_triple r.now)) }
{
    let a = short_triple(p)?;
    let b = short_triple(q)?;
    let c = short_triple(r)?;
    if !are_short(&a, &b, &c) {
        return None;
    }
    Some(short_turn(&a, &b, &c))
}
