// Whether triangles of one plane are apart by an edge of one of them.
ghost use Rattle.std.specs.Prelude.{◌≡◌, ◌↔◌, ◌*ℤ◌, pos, IsTrue};
ghost use Rattle.ember_algebra.specs.Sign.{sgn, is_positive};
ghost use Rattle.ember_model.specs.Planes.{along, main_axis, value_at};
ghost use Rattle.mesh_certificate.specs.Certificate.Facing.{spot_of, turn_along};
ghost use Rattle.mesh_sources.specs.Places.{spots_of, EachSpot, AreOn, IsOutside, HasOuter};

use crate::corners::Corners;
use ember_algebra::{Sign, product_sign, sign_of};
use ember_model::{Axis, Plane, main_axis};
use mesh_point::{SpacePoint, turn_along};

fn sign_along(plane: &Plane, k: Axis) -> Sign
    ensures { result ≡ sgn (along plane.now k) }
{
    match k {
        Axis::X => sign_of(plane.a as i128),
        Axis::Y => sign_of(plane.b as i128),
        Axis::Z => sign_of(plane.c as i128),
    }
}

fn turns_left(plane: &Plane, k: Axis, u: &SpacePoint, v: &SpacePoint, w: &SpacePoint) -> bool
    ensures { result ≡ is_positive (along plane.now k *ℤ turn_along k (spot_of u.now) (spot_of v.now) (spot_of w.now)) }
{
    match product_sign(sign_along(plane, k), turn_along(k, u, v, w)) {
        Sign::Pos => true,
        Sign::Zero | Sign::Neg => false,
    }
}

// Whether `x` isn't on the inner side of the edge from `a` to `b`.
fn is_outside(plane: &Plane, a: &SpacePoint, b: &SpacePoint, x: &SpacePoint) -> bool
    requires a { value_at plane.now (spot_of a.now) ≡ pos 0 }
    requires b { value_at plane.now (spot_of b.now) ≡ pos 0 }
    requires x { value_at plane.now (spot_of x.now) ≡ pos 0 }
    ensures { IsTrue result ↔ IsOutside plane.now (spot_of a.now) (spot_of b.now) (spot_of x.now) }
{
    !turns_left(plane, main_axis(plane), a, b, x)
}

// Whether the line from `a` to `b` has all three points on its outer side or on it.
fn are_outside(plane: &Plane, a: &SpacePoint, b: &SpacePoint, s: &Corners) -> bool
    requires a { value_at plane.now (spot_of a.now) ≡ pos 0 }
    requires b { value_at plane.now (spot_of b.now) ≡ pos 0 }
    requires s { AreOn plane.now (spots_of s.now) }
    ensures { IsTrue result ↔ EachSpot (IsOutside plane.now (spot_of a.now) (spot_of b.now)) (spots_of s.now) }
{
    is_outside(plane, a, b, &s.u) && is_outside(plane, a, b, &s.v) && is_outside(plane, a, b, &s.w)
}

/// Whether the line of some edge of the first triangle has the second one on its outer side or on it.
/// Both lie in the plane and go round counter-clockwise, seen from its front.
pub fn has_outer(plane: &Plane, r: &Corners, s: &Corners) -> bool
    requires r { AreOn plane.now (spots_of r.now) }
    requires s { AreOn plane.now (spots_of s.now) }
    ensures { IsTrue result ↔ HasOuter plane.now (spots_of r.now) (spots_of s.now) }
{
    are_outside(plane, &r.u, &r.v, s)
        || are_outside(plane, &r.v, &r.w, s)
        || are_outside(plane, &r.w, &r.u, s)
}
