// The values of a plane at the corners of a triangle.
ghost use Rattle.std.specs.Prelude.{◌≡◌, neg_ℤ};
ghost use Rattle.ember_algebra.specs.Sign.{is_negative, is_zero, is_positive};
ghost use Rattle.ember_model.specs.Limits.{broad_limit};
ghost use Rattle.ember_model.specs.Within.{IsTriWithin};
ghost use Rattle.ember_width.specs.Broad.{IsBroadPlane, most_value};
ghost use Rattle.ember_width.specs.Heights.{heights_of, none_behind, none_in_front, all_behind, all_in_front, all_on};
ghost use Rattle.ember_width.specs.Heights.{lie_in_front, lie_behind, AreWithin};

use crate::sides::value_at_corner;
use ember_model::{Plane, Tri};

/// The values of a plane at the corners of a triangle: above 0 in front of it, below 0 behind it.
#[derive(Clone, Copy)]
pub struct Heights {
    pub a: i64,
    pub b: i64,
    pub c: i64,
}

/// The heights of the triangle's corners over the plane.
pub fn heights_of(p: &Plane, t: &Tri) -> Heights
    requires plane { IsBroadPlane p.now }
    requires tri { IsTriWithin broad_limit t.now }
    ensures value { result ≡ heights_of p.now t.now }
    ensures small { AreWithin most_value result }
{
    Heights {
        a: value_at_corner(p, &t.a),
        b: value_at_corner(p, &t.b),
        c: value_at_corner(p, &t.c),
    }
}

/// Whether a point of this height is behind the plane.
pub fn is_behind(height: i64) -> bool
    ensures { result ≡ is_negative height }
{
    height < 0
}

/// Whether a point of this height is in front of the plane.
pub fn is_in_front(height: i64) -> bool
    ensures { result ≡ is_positive height }
{
    height > 0
}

// Whether a point of this height is on the plane.
fn is_on(height: i64) -> bool
    ensures { result ≡ is_zero height }
{
    height == 0
}

impl Heights {
    /// The heights over the same plane with the opposite front.
    pub fn opposite(&self) -> Heights
        requires { AreWithin most_value self.now }
        ensures a { result.a ≡ neg_ℤ self.now.a }
        ensures b { result.b ≡ neg_ℤ self.now.b }
        ensures c { result.c ≡ neg_ℤ self.now.c }
    {
        Heights {
            a: -self.a,
            b: -self.b,
            c: -self.c,
        }
    }

    /// Whether no corner is behind the plane.
    pub fn none_behind(&self) -> bool
        ensures { result ≡ none_behind self.now }
    {
        !is_behind(self.a) && (!is_behind(self.b) && !is_behind(self.c))
    }

    /// Whether no corner is in front of the plane.
    pub fn none_in_front(&self) -> bool
        ensures { result ≡ none_in_front self.now }
    {
        !is_in_front(self.a) && (!is_in_front(self.b) && !is_in_front(self.c))
    }

    /// Whether all corners are strictly behind the plane.
    pub fn all_behind(&self) -> bool
        ensures { result ≡ all_behind self.now }
    {
        is_behind(self.a) && (is_behind(self.b) && is_behind(self.c))
    }

    /// Whether all corners are strictly in front of the plane.
    pub fn all_in_front(&self) -> bool
        ensures { result ≡ all_in_front self.now }
    {
        is_in_front(self.a) && (is_in_front(self.b) && is_in_front(self.c))
    }

    /// Whether all corners are on the plane.
    pub fn all_on(&self) -> bool
        ensures { result ≡ all_on self.now }
    {
        is_on(self.a) && (is_on(self.b) && is_on(self.c))
    }

    /// Whether no corner is behind the plane, and not all are on it.
    pub fn lie_in_front(&self) -> bool
        ensures { result ≡ lie_in_front self.now }
    {
        self.none_behind() && !self.all_on()
    }

    /// Whether no corner is in front of the plane, and not all are on it.
    pub fn lie_behind(&self) -> bool
        ensures { result ≡ lie_behind self.now }
    {
        self.none_in_front() && !self.all_on()
    }
}
