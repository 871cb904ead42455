// Points in lowest terms.
ghost use Rattle.std.specs.Prelude.{◌≡◌, ◌^◌, ◌<◌, pos, ◌<ℤ◌, unsigned_abs, int_div};
ghost use Rattle.ember_model.specs.Edges.{SamePoint};
ghost use Rattle.ember_model.specs.FaceFiles.{IsLowest};
ghost use Rattle.ember_point.specs.Points.{spot_of, IsGreatestDivisor};

use crate::meet_point::Meet;
use ember_algebra::long_gcd;

// The greatest common divisor of the four numbers.
fn common_divisor(m: &Meet) -> i128
    ensures { IsGreatestDivisor (spot_of m.now) result }
{
    let first = long_gcd(m.w.unsigned_abs(), m.x.unsigned_abs());
    let second = long_gcd(first, m.y.unsigned_abs());
    let third = long_gcd(second, m.z.unsigned_abs());
    third as i128
}

// The number divided by a divisor of it. Divides in 64 bits if both numbers fit into them.
fn quotient(n: i128, divisor: i128) -> i128
    requires positive { pos 0 <ℤ divisor }
    requires small { unsigned_abs n < 2 ^ 92 }
    ensures { result ≡ int_div n divisor }
{
    if n.unsigned_abs() < 1 << 62 && divisor < 1 << 62 {
        ((n as i64) / (divisor as i64)) as i128
    } else {
        n / divisor
    }
}

/// The same point, with 1 as the greatest common divisor of its four numbers.
pub fn reduce(m: &Meet) -> Meet
    ensures same { SamePoint (spot_of m.now) (spot_of result) }
    ensures lowest { IsLowest (spot_of result) }
{
    let divisor = common_divisor(m);
    if divisor == 1 {
        return *m;
    }
    Meet {
        x: quotient(m.x, divisor),
        y: quotient(m.y, divisor),
        z: quotient(m.z, divisor),
        w: quotient(m.w, divisor),
    }
}
