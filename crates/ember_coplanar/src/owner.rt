// Which triangle owns a region.
ghost use Rattle.std.specs.Prelude.{◌≡◌, ◌<◌, ◌↔◌, true, IsTrue, IfSome, All, length, slice_get};
ghost use Rattle.ember_algebra.specs.Sign.{is_negative};
ghost use Rattle.ember_model.specs.Within.{IsTriWithin};
ghost use Rattle.ember_model.specs.Planes.{value_at};
ghost use Rattle.ember_model.specs.Faces.{face_of, Everywhere, Contains};
ghost use Rattle.ember_model.specs.Owners.{IsOwner};
ghost use Rattle.ember_coplanar.specs.TrianglePlane.{LiesOn};

use crate::plane::same_plane;
use ember_model::{Plane, Tri, edge_plane, main_axis, support_of};
use ember_poly::{Reach, Ring, reach};
use ember_width::Width;

// Whether every inside point is on the negative side of the plane.
fn is_below<W: Width>(r: &Ring<W>, p: &Plane) -> bool
    requires { W.IsPlane p.now }
    ensures { IsTrue result ↔ Everywhere r.now (λ v. is_negative (value_at p.now v) ≡ true) }
{
    match reach(r, p) {
        Reach::Below => true,
        Reach::Above | Reach::On | Reach::Both => false,
    }
}

/// Whether every inside point of `r`, which lies in the plane of `t`, is an inside point of the
/// face of `t`. Only tests call this.
pub fn contains<W: Width>(t: &Tri, r: &Ring<W>) -> bool
    requires tri { IsTriWithin W.corner t.now }
    requires plane { LiesOn t.now r.now }
    ensures { IsTrue result ↔ Contains (face_of t.now) r.now }
{
    let k = main_axis(&support_of(t));
    is_below(r, &edge_plane(t, 0, k))
        && (is_below(r, &edge_plane(t, 1, k)) && is_below(r, &edge_plane(t, 2, k)))
}

/// Whether triangle `i` of the list, in whose plane `r` lies, owns `r`: no triangle before it in
/// the list that is coplanar with it contains `r`. Only tests call this; ember_leaf finds owners as
/// it cuts.
pub fn is_owner<W: Width>(near: &[Tri], i: u32, r: &Ring<W>) -> bool
    requires valid { All (IsTriWithin W.corner) near.now }
    requires index { i < length near.now }
    requires plane { IfSome (slice_get near.now i) (λ t. LiesOn t r.now) }
    ensures { IsTrue result ↔ IsOwner near.now i r.now }
{
    let own = &near[i as usize];
    for t in &near[..i as usize] {
        if same_plane(t, own) && contains(t, r) {
            return false;
        }
    }
    true
}
