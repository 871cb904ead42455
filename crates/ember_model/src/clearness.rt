// Points that are clear of faces and triangles.
ghost use Rattle.std.specs.Prelude.{◌≡◌, ◌↔◌, IsTrue, All};
ghost use Rattle.ember_algebra.specs.Sign.{is_zero};
ghost use Rattle.ember_model.specs.Valid.{IsValidPlane, IsValidTri, IsValidSpot, IsValidFace};
ghost use Rattle.ember_model.specs.Faces.{is_in_closed};
ghost use Rattle.ember_model.specs.Clear.{IsClear, IsClearOf};
ghost use Rattle.ember_model.specs.ClearTest.{enters, is_entry, is_ray_clear, is_clear, is_clear_of, face_with};

use crate::face::Face;
use crate::plane::Plane;
use crate::point::{Axis, Spot};
use crate::rays::{hit_on_ray, meets};
use crate::tri::Tri;
use crate::triangle_planes::{component, has_no_normal, main_edges, support_of};
use crate::values::{RayPoint, all_negative, none_positive, plane_value};

// Whether a point at which a plane has this value lies on it.
fn is_on(front: i128) -> bool
    ensures { result ≡ is_zero front }
{
    front == 0
}

// Whether a ray is parallel to a plane whose normal has the entry `slope` along it.
fn is_parallel(slope: i64) -> bool
    ensures { result ≡ is_zero slope }
{
    slope == 0
}

// Whether the point lies in the closed face with this support plane and these edge planes.
fn in_closed(p: &Spot, support: &Plane, edges: &[Plane]) -> bool
    requires spot { IsValidSpot p.now }
    requires support { IsValidPlane support.now }
    requires edges { All IsValidPlane edges.now }
    ensures { result ≡ is_in_closed (face_with support.now edges.now) p.now }
{
    is_on(plane_value(support, p))
        && none_positive(
            edges,
            p,
            &RayPoint {
                axis: Axis::X,
                factor: 1,
                offset: 0,
            },
        )
}

// Whether the ray passes from the front of `edge` to its back at a point where no plane of the list
// is positive.
fn is_entry(p: &Spot, a: Axis, edge: &Plane, edges: &[Plane]) -> bool
    requires spot { IsValidSpot p.now }
    requires plane { IsValidPlane edge.now }
    requires edges { All IsValidPlane edges.now }
    ensures { result ≡ is_entry edges.now a p.now edge.now }
{
    let slope = component(edge, a);
    let offset = plane_value(edge, p);
    slope < 0
        && (offset > 0
            && none_positive(
                edges,
                p,
                &RayPoint {
                    axis: a,
                    factor: -slope,
                    offset,
                },
            ))
}

// Whether a ray in the support plane enters the closed face through some edge.
fn enters(p: &Spot, a: Axis, edges: &[Plane]) -> bool
    requires spot { IsValidSpot p.now }
    requires edges { All IsValidPlane edges.now }
    ensures { result ≡ enters edges.now a p.now }
{
    for edge in edges {
        if is_entry(p, a, edge, edges) {
            return true;
        }
    }
    false
}

// Whether the ray from the point doesn't meet the boundary of the face, if the point isn't in the
// closed face.
fn is_ray_clear(p: &Spot, a: Axis, support: &Plane, edges: &[Plane]) -> bool
    requires spot { IsValidSpot p.now }
    requires support { IsValidPlane support.now }
    requires edges { All IsValidPlane edges.now }
    ensures { result ≡ is_ray_clear (face_with support.now edges.now) a p.now }
{
    let front = plane_value(support, p);
    let slope = component(support, a);
    if is_parallel(slope) {
        !is_on(front) || !enters(p, a, edges)
    } else if meets(front, slope) {
        let hit = hit_on_ray(front, slope, a);
        !none_positive(edges, p, &hit) || all_negative(edges, p, &hit)
    } else {
        true
    }
}

// Whether the point is clear of the face with this support plane and these edge planes.
#[tactic(none)]
fn clear_of(p: &Spot, support: &Plane, edges: &[Plane]) -> bool
    requires spot { IsValidSpot p.now }
    requires support { IsValidPlane support.now }
    requires edges { All IsValidPlane edges.now }
    ensures { result ≡ is_clear (face_with support.now edges.now) p.now }
{
    !in_closed(p, support, edges)
        && (is_ray_clear(p, Axis::X, support, edges)
            && (is_ray_clear(p, Axis::Y, support, edges)
                && is_ray_clear(p, Axis::Z, support, edges)))
}

/// Whether the point is not in the closed face, and none of the rays from it along +x, +y and +z
/// meets the face's boundary. Only tests call this.
pub fn face_clear(p: &Spot, f: &Face) -> bool
    requires spot { IsValidSpot p.now }
    requires face { IsValidFace f.now }
    ensures { IsTrue result ↔ IsClear f.now p.now }
{
    clear_of(p, &f.support, f.edges.items())
}

/// Whether the point is clear of the triangle's face, as `face_clear` says. Every point is clear of
/// a triangle whose normal is zero.
pub fn clear(p: &Spot, t: &Tri) -> bool
    requires spot { IsValidSpot p.now }
    requires tri { IsValidTri t.now }
    ensures { IsTrue result ↔ IsClearOf t.now p.now }
{
    let support = support_of(t);
    has_no_normal(&support) || clear_of(p, &support, &main_edges(t, &support))
}
