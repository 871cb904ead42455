// The line in which a support plane meets a level plane.
ghost use Rattle.std.specs.Prelude.{ℤ, pos, negsuc, ◌≡◌, ◌-ℤ◌, ◌*ℤ◌, ◌≤ℤ◌};
ghost use Rattle.ember_model.specs.Limits.{direction_limit, narrow_limit};
ghost use Rattle.ember_algebra.specs.Size.{Small};
ghost use Rattle.ember_model.specs.Valid.{IsValidPlane};
ghost use Rattle.ember_slice.specs.Lines.{level, IsFlat};
ghost use Rattle.ember_slice.specs.Intervals.{AllOf, IsHalfLine};

use ember_algebra::Sign;
use ember_model::Plane;
use ember_point::{Meet, meet, side};

/// The part of a line that lies behind a plane. The line is that of a support plane at a level, and
/// goes along (-b, a, 0) if that plane has the normal (a, b, c).
pub(crate) enum HalfLine {
    Nothing,
    Everything,
    /// The points after this one.
    From(Meet),
    /// The points before this one.
    To(Meet),
}

// The plane z = at + 1/2.
fn level_plane(at: i32) -> Plane
    requires low { negsuc narrow_limit ≤ℤ at }
    requires high { at ≤ℤ pos narrow_limit }
    ensures value { result ≡ level at }
    ensures valid { IsValidPlane result }
{
    Plane {
        a: 0,
        b: 0,
        c: 2,
        d: 2 * i64::from(at) + 1,
    }
}

// How much greater the plane's value gets along the line.
fn climb(support: &Plane, p: &Plane) -> i64
    requires support { IsValidPlane support.now }
    requires plane { IsValidPlane p.now }
    ensures value { result ≡ support.now.a *ℤ p.now.b -ℤ support.now.b *ℤ p.now.a }
    ensures small { Small direction_limit result }
{
    support.a * p.b - support.b * p.a
}

// The vertical plane through the origin that the line crosses at right angles.
fn across(support: &Plane) -> Plane
    requires { IsValidPlane support.now }
    ensures value { result ≡ record { a = pos 0 -ℤ support.now.b; b = support.now.a; c = pos 0; d = pos 0 } }
    ensures valid { IsValidPlane result }
{
    Plane {
        a: -support.b,
        b: support.a,
        c: 0,
        d: 0,
    }
}

// Whether the line lies behind a plane that is parallel to it.
fn is_behind(support: &Plane, at: i32, p: &Plane) -> bool
    requires support { IsValidPlane support.now }
    requires low { negsuc narrow_limit ≤ℤ at }
    requires high { at ≤ℤ pos narrow_limit }
    requires plane { IsValidPlane p.now }
    requires tilted { IsFlat support.now → ⊥ }
    requires parallel { support.now.a *ℤ p.now.b -ℤ support.now.b *ℤ p.now.a ≡ pos 0 }
    ensures { AllOf support.now at p.now result }
{
    match meet(support, &level_plane(at), &across(support)) {
        Some(point) => matches!(side(p, &point), Sign::Neg),
        None => false,
    }
}

/// The part of the line that lies behind the plane.
pub(crate) fn part_behind(support: &Plane, at: i32, p: &Plane) -> HalfLine
    requires support { IsValidPlane support.now }
    requires low { negsuc narrow_limit ≤ℤ at }
    requires high { at ≤ℤ pos narrow_limit }
    requires plane { IsValidPlane p.now }
    requires tilted { IsFlat support.now → ⊥ }
    ensures { IsHalfLine support.now at p.now result }
{
    match meet(support, &level_plane(at), p) {
        None => {
            if is_behind(support, at, p) {
                HalfLine::Everything
            } else {
                HalfLine::Nothing
            }
        }
        Some(point) => {
            if climb(support, p) < 0 {
                HalfLine::From(point)
            } else {
                HalfLine::To(point)
            }
        }
    }
}
