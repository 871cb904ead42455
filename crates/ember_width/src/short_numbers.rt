// Points in short numbers: their sides of a plane are found in fewer steps.
ghost use Rattle.std.specs.Prelude.{◌≡◌, true};
ghost use Rattle.ember_point.specs.Points.{spot_of, has_short_numbers};
ghost use Rattle.ember_width.specs.BroadPoints.{spot_of as broad_spot_of, short_spot, is_short};

use crate::broad_point::BroadPoint;
use crate::short_point::ShortPoint;
use ember_point::Meet;

/// The numbers of a short point of the narrow grid.
pub fn numbers_of_narrow(m: &Meet) -> ShortPoint
    requires { has_short_numbers (spot_of m.now) ≡ true }
    ensures { short_spot result ≡ spot_of m.now }
{
    ShortPoint {
        x: m.x as i64,
        y: m.y as i64,
        z: m.z as i64,
        w: m.w as i64,
    }
}

/// Whether the point is short.
pub fn is_short(m: &BroadPoint) -> bool
    ensures { result ≡ is_short m.now }
{
    matches!(m, BroadPoint::Short(_))
}

/// The numbers of a short point.
pub fn numbers_of_short(m: &BroadPoint) -> ShortPoint
    requires { is_short m.now ≡ true }
    ensures { short_spot result ≡ broad_spot_of m.now }
{
    match m {
        BroadPoint::Short(short) => *short,
        BroadPoint::Floored(_) | BroadPoint::Far(_) => unreachable!(),
    }
}
