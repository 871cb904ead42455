// Whether triangles lie on a plane and face its front.
ghost use Rattle.std.specs.Prelude.{◌≡◌, ◌↔◌, ◌*ℤ◌, IsTrue};
ghost use Rattle.ember_algebra.specs.Sign.{sgn, is_zero, is_positive};
ghost use Rattle.ember_model.specs.Planes.{value_at, along, main_axis};
ghost use Rattle.ember_width.specs.Broad.{IsBroadPlane};
ghost use Rattle.mesh_certificate.specs.Certificate.Facing.{spot_of, turn_along, are_on, FacesFront};

use ember_algebra::{Sign, product_sign, sign_of};
use ember_model::{Axis, Plane, main_axis};
use mesh_point::{SpacePoint, side, turn_along};

// Whether the point lies on the plane.
fn is_on(plane: &Plane, p: &SpacePoint) -> bool
    requires { IsBroadPlane plane.now }
    ensures { result ≡ is_zero (value_at plane.now (spot_of p.now)) }
{
    match side(plane, p) {
        Sign::Zero => true,
        Sign::Neg | Sign::Pos => false,
    }
}

fn sign_along(plane: &Plane, k: Axis) -> Sign
    ensures { result ≡ sgn (along plane.now k) }
{
    match k {
        Axis::X => sign_of(plane.a as i128),
        Axis::Y => sign_of(plane.b as i128),
        Axis::Z => sign_of(plane.c as i128),
    }
}

// Whether the three points go round counter-clockwise, seen from the plane's front, by their
// coordinates along the axes other than `k`.
fn turns_left(plane: &Plane, k: Axis, u: &SpacePoint, v: &SpacePoint, w: &SpacePoint) -> bool
    ensures { result ≡ is_positive (along plane.now k *ℤ turn_along k (spot_of u.now) (spot_of v.now) (spot_of w.now)) }
{
    match product_sign(sign_along(plane, k), turn_along(k, u, v, w)) {
        Sign::Pos => true,
        Sign::Zero | Sign::Neg => false,
    }
}

// Whether all three points lie on the plane.
fn are_on(plane: &Plane, u: &SpacePoint, v: &SpacePoint, w: &SpacePoint) -> bool
    requires { IsBroadPlane plane.now }
    ensures { result ≡ are_on plane.now (spot_of u.now) (spot_of v.now) (spot_of w.now) }
{
    is_on(plane, u) && is_on(plane, v) && is_on(plane, w)
}

/// Whether the three points lie on the plane and, seen from its front, go round their triangle
/// counter-clockwise. No points on one line do.
pub fn faces_front(plane: &Plane, u: &SpacePoint, v: &SpacePoint, w: &SpacePoint) -> bool
    requires { IsBroadPlane plane.now }
    ensures { IsTrue result ↔ FacesFront plane.now (spot_of u.now) (spot_of v.now) (spot_of w.now) }
{
    are_on(plane, u, v, w) && turns_left(plane, main_axis(plane), u, v, w)
}
