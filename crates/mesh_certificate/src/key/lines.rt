// The key of the line in which two planes meet.
ghost use Rattle.std.specs.Prelude.{◌≡◌, ◌≢◌, ◌↔◌, [], ◌∷◌, true, pos, ◌-ℤ◌, ◌*ℤ◌, unsigned_abs, IfSome, IsNone, IsTrue};
ghost use Rattle.ember_algebra.specs.Large.{first_sign};
ghost use Rattle.ember_algebra.specs.Sign.{is_negative, sign};
ghost use Rattle.ember_algebra.specs.Size.{Small};
ghost use Rattle.ember_algebra.specs.Vector.{zero_v};
ghost use Rattle.ember_model.specs.declared.point.Spot.{Spot};
ghost use Rattle.ember_width.specs.Broad.{IsBroadPlane, most_normal, most_constant, most_cross, most_short};
ghost use Rattle.mesh_certificate.specs.Key.Divisors.{Divides, IsGreatestDivisor};
ghost use Rattle.mesh_certificate.specs.Key.LineKeys.{direction, moment, direction_of, moment_of, coordinates};
ghost use Rattle.mesh_certificate.specs.Key.LineKeys.{IsLineSized, IsOnLine, IsOnBoth, IsLineKey, IsMultiple, most_moment};

use crate::key::division::large_quotient;
use crate::key::divisor::{divisor_of_three, divisor_with};
use ember_algebra::long_gcd;
use ember_model::Plane;

/// Pluecker coordinates of a line: its direction `(dx, dy, dz)`, and its moment `(mx, my, mz)`, the
/// cross product of any point of the line and the direction. That of two planes of the broad grid is
/// below 2^81 in size, its moment below 2^103.
#[derive(Clone, Copy, Debug, PartialEq, Eq, Hash)]
pub struct LineKey {
    pub dx: i128,
    pub dy: i128,
    pub dz: i128,
    pub mx: i128,
    pub my: i128,
    pub mz: i128,
}

// The greatest size of a number of 62 bits.
const MOST_SHORT: i128 = 4611686018427387903;

fn minor(a: i64, b: i64, c: i64, d: i64) -> i128
    requires a { Small most_normal a }
    requires b { Small most_normal b }
    requires c { Small most_normal c }
    requires d { Small most_normal d }
    ensures value { result ≡ a *ℤ d -ℤ b *ℤ c }
    ensures small { Small most_cross result }
{
    a as i128 * d as i128 - b as i128 * c as i128
}

// An entry of the moment: of the first plane's entry `n` and constant `d`, and of the second's `m`
// and `e`.
fn moment_entry(n: i64, d: i64, m: i64, e: i64) -> i128
    requires n { Small most_normal n }
    requires d { Small most_constant d }
    requires m { Small most_normal m }
    requires e { Small most_constant e }
    ensures value { result ≡ e *ℤ n -ℤ d *ℤ m }
    ensures small { Small most_moment result }
{
    e as i128 * n as i128 - d as i128 * m as i128
}

// The coordinates of the line in which the planes meet, not yet in lowest terms.
fn meet_of_planes(plane: &Plane, edge: &Plane) -> LineKey
    requires plane { IsBroadPlane plane.now }
    requires edge { IsBroadPlane edge.now }
    ensures direction { direction result ≡ direction_of plane.now edge.now }
    ensures moment { moment result ≡ moment_of plane.now edge.now }
    ensures sized { IsLineSized result }
{
    LineKey {
        dx: minor(plane.b, plane.c, edge.b, edge.c),
        dy: minor(plane.c, plane.a, edge.c, edge.a),
        dz: minor(plane.a, plane.b, edge.a, edge.b),
        mx: moment_entry(plane.a, plane.d, edge.a, edge.d),
        my: moment_entry(plane.b, plane.d, edge.b, edge.d),
        mz: moment_entry(plane.c, plane.d, edge.c, edge.d),
    }
}

// Whether the number has at most 62 bits.
fn is_short(x: i128) -> bool
    ensures { result ≡ true → Small most_short x }
{
    -MOST_SHORT <= x && x <= MOST_SHORT
}

// The greatest common divisor, where the entries of the direction are short: it runs in 64 bits but
// for three remainders.
fn short_divisor(line: &LineKey) -> u64
    requires direction { direction line.now ≢ zero_v }
    requires dx { Small most_short line.now.dx }
    requires dy { Small most_short line.now.dy }
    requires dz { Small most_short line.now.dz }
    ensures { IsGreatestDivisor (coordinates line.now) result }
{
    let of_direction = divisor_of_three(line.dx as i64, line.dy as i64, line.dz as i64);
    let with_x = divisor_with(of_direction, line.mx);
    let with_y = divisor_with(with_x, line.my);
    divisor_with(with_y, line.mz)
}

fn long_divisor(line: &LineKey) -> u128
    ensures { IsGreatestDivisor (coordinates line.now) result }
{
    let of_two = long_gcd(line.dx.unsigned_abs(), line.dy.unsigned_abs());
    let of_direction = long_gcd(of_two, line.dz.unsigned_abs());
    let with_x = long_gcd(of_direction, line.mx.unsigned_abs());
    let with_y = long_gcd(with_x, line.my.unsigned_abs());
    long_gcd(with_y, line.mz.unsigned_abs())
}

fn divisor_of_line(line: &LineKey) -> u128
    requires { direction line.now ≢ zero_v }
    ensures { IsGreatestDivisor (coordinates line.now) result }
{
    if is_short(line.dx) && is_short(line.dy) && is_short(line.dz) {
        short_divisor(line) as u128
    } else {
        long_divisor(line)
    }
}

/// Whether the direction isn't zero. It is never zero in a key that [`line_key`] gives.
pub fn has_direction(line: &LineKey) -> bool
    ensures { IsTrue result ↔ (direction line.now ≢ zero_v) }
{
    line.dx != 0 || line.dy != 0 || line.dz != 0
}

// Whether the first entry of the direction that isn't 0 is negative.
fn is_backward(line: &LineKey) -> bool
    ensures { result ≡ is_negative (first_sign (line.now.dx ∷ line.now.dy ∷ line.now.dz ∷ [])) }
{
    if line.dx != 0 {
        line.dx < 0
    } else if line.dy != 0 {
        line.dy < 0
    } else {
        line.dz < 0
    }
}

// The greatest common divisor of the coordinates, with the sign of the first entry of the direction
// that isn't 0.
fn signed_divisor(line: &LineKey) -> i128
    requires direction { direction line.now ≢ zero_v }
    requires sized { IsLineSized line.now }
    ensures divisor { IsGreatestDivisor (coordinates line.now) (unsigned_abs result) }
    ensures nonzero { result ≢ pos 0 }
    ensures sign { sign result ≡ first_sign (line.now.dx ∷ line.now.dy ∷ line.now.dz ∷ []) }
{
    let divisor = divisor_of_line(line) as i128;
    if is_backward(line) { -divisor } else { divisor }
}

fn divided(line: &LineKey, divisor: i128) -> LineKey
    requires sized { IsLineSized line.now }
    requires nonzero { divisor ≢ pos 0 }
    requires divides { Divides (unsigned_abs divisor) (coordinates line.now) }
    ensures { IsMultiple divisor result line.now }
{
    LineKey {
        dx: large_quotient(line.dx, divisor),
        dy: large_quotient(line.dy, divisor),
        dz: large_quotient(line.dz, divisor),
        mx: large_quotient(line.mx, divisor),
        my: large_quotient(line.my, divisor),
        mz: large_quotient(line.mz, divisor),
    }
}

/// The line in which two planes meet, by coordinates that are the same for each two planes that
/// meet in it: in lowest terms, the first entry of the direction that isn't 0 being positive.
/// `None` if the normals are parallel.
pub fn line_key(plane: &Plane, edge: &Plane) -> Option<LineKey>
    requires plane { IsBroadPlane plane.now }
    requires edge { IsBroadPlane edge.now }
    ensures none { IsNone result ↔ (direction_of plane.now edge.now ≡ zero_v) }
    ensures key { IfSome result (λ k. IsLineKey plane.now edge.now k) }
    ensures points { IfSome result (λ k. (v : Spot) → IsOnLine k v ↔ IsOnBoth plane.now edge.now v) }
    ensures sized { IfSome result IsLineSized }
{
    let line = meet_of_planes(plane, edge);
    if !has_direction(&line) {
        return None;
    }
    Some(divided(&line, signed_divisor(&line)))
}
