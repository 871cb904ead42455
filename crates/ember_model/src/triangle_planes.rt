// The planes of a triangle: its support plane, its edge planes along an axis, and its face.
ghost use Rattle.std.specs.Prelude.{◌≡◌, ℕ, ◌<◌, ◌&&◌, IfOk, IfSome, All, slice_get, if◌then◌else◌};
ghost use Rattle.ember_algebra.specs.Size.{Small};
ghost use Rattle.ember_algebra.specs.Sign.{sign, is_zero};
ghost use Rattle.ember_model.specs.Limits.{broad_limit, valid_normal_limit};
ghost use Rattle.ember_model.specs.Within.{IsCornerWithin, IsTriWithin, IsSupportWithin, IsEdgeWithin, IsFaceWithin};
ghost use Rattle.ember_model.specs.Valid.{IsValidTri, IsValidPlane, IsValidFace};
ghost use Rattle.ember_model.specs.Sizes.{IsSupportSized, IsEdgeSized};
ghost use Rattle.ember_model.specs.Planes.{support_of, main_axis, along, unit, times_plane, edge_through, edge_planes};
ghost use Rattle.ember_model.specs.Faces.{is_flat, face_of, edges_of};

use crate::face::Face;
use crate::plane::{Plane, Planes};
use crate::point::{Axis, Corner};
use crate::tri::Tri;
use crate::vector3::{cross_product, edge_normal, plane_with, sign_number, vector_between};
use std::alloc::{AllocError, Global};

/// The only error of a call that allocates.
pub type OutOfMemory = AllocError;

/// The plane in which the triangle lies; its normal points to the triangle's front.
pub fn support_of(t: &Tri) -> Plane
    requires { IsTriWithin broad_limit t.now }
    ensures value { result ≡ support_of t.now }
    ensures within { (m : ℕ) → IsTriWithin m t.now → IsSupportWithin m result }
    ensures valid { IsValidTri t.now → IsValidPlane result }
    ensures small { IsValidTri t.now → IsSupportSized result }
{
    let u = vector_between(&t.a, &t.b);
    let v = vector_between(&t.a, &t.c);
    plane_with(&cross_product(&u, &v), &t.a)
}

/// The axis along which the plane's normal is largest in size, the first of them in a tie.
pub fn main_axis(p: &Plane) -> Axis
    ensures { result ≡ main_axis p.now }
{
    let a = p.a.unsigned_abs();
    let b = p.b.unsigned_abs();
    let c = p.c.unsigned_abs();
    if b <= a && c <= a {
        Axis::X
    } else if c <= b {
        Axis::Y
    } else {
        Axis::Z
    }
}

/// The entry of a plane's normal along an axis.
pub fn component(plane: &Plane, axis: Axis) -> i64
    requires { IsValidPlane plane.now }
    ensures value { result ≡ along plane.now axis }
    ensures small { Small valid_normal_limit result }
{
    match axis {
        Axis::X => plane.a,
        Axis::Y => plane.b,
        Axis::Z => plane.c,
    }
}

// The sign of the entry of a plane's normal along an axis.
fn sign_along(plane: &Plane, axis: Axis) -> i64
    ensures value { result ≡ sign (along plane.now axis) }
    ensures small { Small 1 result }
{
    match axis {
        Axis::X => sign_number(plane.a),
        Axis::Y => sign_number(plane.b),
        Axis::Z => sign_number(plane.c),
    }
}

// The plane through the edge from `u` to `v` and parallel to the axis `k`, times the sign `s`.
fn side_plane(u: &Corner, v: &Corner, k: Axis, s: i64) -> Plane
    requires from { IsCornerWithin broad_limit u.now }
    requires to { IsCornerWithin broad_limit v.now }
    requires s { Small 1 s }
    ensures value { result ≡ times_plane s (edge_through u.now v.now (unit k)) }
    ensures within { (m : ℕ) → IsCornerWithin m u.now → IsCornerWithin m v.now → IsEdgeWithin m result }
{
    let step = vector_between(u, v);
    plane_with(&edge_normal(&step, k, s), u)
}

/// The plane through an edge of the triangle and parallel to the axis `k`. Its value is negative on
/// the triangle's side of it. If the entry of the triangle's normal along `k` is 0, all numbers of
/// the plane are 0. Edges 0, 1 and 2 go from `a` to `b`, from `b` to `c` and from `c` to `a`.
pub fn edge_plane(t: &Tri, edge: u8, k: Axis) -> Plane
    requires tri { IsTriWithin broad_limit t.now }
    requires edge { edge < 3 }
    ensures value { slice_get (edge_planes t.now k) edge ≡ Some result }
    ensures within { (m : ℕ) → IsTriWithin m t.now → IsEdgeWithin m result }
    ensures valid { IsValidTri t.now → IsValidPlane result }
    ensures small { IsValidTri t.now → IsEdgeSized result }
{
    let s = sign_along(&support_of(t), k);
    match edge {
        0 => side_plane(&t.a, &t.b, k, s),
        1 => side_plane(&t.b, &t.c, k, s),
        _ => side_plane(&t.c, &t.a, k, s),
    }
}

/// Whether the plane's normal is zero.
pub fn has_no_normal(plane: &Plane) -> bool
    ensures { result ≡ is_zero plane.now.a && (is_zero plane.now.b && is_zero plane.now.c) }
{
    plane.a == 0 && (plane.b == 0 && plane.c == 0)
}

/// The edge planes parallel to the main axis, for edges 0, 1 and 2. Requires that `support` is the
/// triangle's support plane.
pub fn main_edges(t: &Tri, support: &Plane) -> [Plane; 3]
    requires tri { IsTriWithin broad_limit t.now }
    requires support { support.now ≡ support_of t.now }
    ensures value { result ≡ edges_of t.now }
    ensures within { (m : ℕ) → IsTriWithin m t.now → All (IsEdgeWithin m) result }
    ensures valid { IsValidTri t.now → All IsValidPlane result }
{
    let k = main_axis(support);
    let s = sign_along(support, k);
    [
        side_plane(&t.a, &t.b, k, s),
        side_plane(&t.b, &t.c, k, s),
        side_plane(&t.c, &t.a, k, s),
    ]
}

/// The triangle's face: its support plane and its edge planes parallel to the main axis. None if
/// the triangle's normal is zero.
pub fn face_of(alloc: Global, t: &Tri) -> Result<Option<Face>, OutOfMemory>
    requires { IsTriWithin broad_limit t.now }
    ensures value { IfOk result (λ f. f ≡ (if is_flat t.now then None else Some (face_of t.now))) }
    ensures within { (m : ℕ) → IsTriWithin m t.now → IfOk result (λ f. IfSome f (IsFaceWithin m)) }
    ensures valid { IsValidTri t.now → IfOk result (λ f. IfSome f IsValidFace) }
    ensures support { IsValidTri t.now → IfOk result (λ f. IfSome f (λ g. IsSupportSized g.support)) }
    ensures edges { IsValidTri t.now → IfOk result (λ f. IfSome f (λ g. All IsEdgeSized g.edges)) }
{
    let support = support_of(t);
    if has_no_normal(&support) {
        return Ok(None);
    }
    let edges = Vec::from_array(alloc, main_edges(t, &support))?;
    Ok(Some(Face {
        support,
        edges: Planes::of(edges),
    }))
}
