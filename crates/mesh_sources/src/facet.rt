// Triangles of a mesh with what their numbers lead to.
ghost use Rattle.std.specs.Prelude.{◌≡◌, ◌↔◌, All, IfSome, IsTrue, slice_get};
ghost use Rattle.ember_model.specs.Valid.{IsValidPlane};
ghost use Rattle.mesh_sources.specs.Places.{IsProper};
ghost use Rattle.mesh_sources.specs.Sources.{facet_of};

use crate::corners::Corners;
use ember_model::Plane;
use mesh_certificate::{Triangle, faces_front};
use mesh_point::SpacePoint;

/// A triangle of a mesh: its plane and its corners.
#[derive(Clone, Copy)]
pub struct Facet {
    pub plane: Plane,
    pub corners: Corners,
}

fn point_at(points: &[SpacePoint], number: u32) -> Option<SpacePoint>
    ensures { result ≡ slice_get points.now number }
{
    points.get(number as usize).copied()
}

fn plane_at(planes: &[Plane], number: u32) -> Option<Plane>
    requires { All IsValidPlane planes.now }
    ensures value { result ≡ slice_get planes.now number }
    ensures valid { IfSome result (λ p. IsValidPlane p) }
{
    planes.get(number as usize).copied()
}

/// The triangle with the plane of its first edge and the starts of its edges, if the tables have
/// them.
pub fn facet_of(points: &[SpacePoint], planes: &[Plane], t: &Triangle) -> Option<Facet>
    requires { All IsValidPlane planes.now }
    ensures value { result ≡ facet_of points.now planes.now t.now }
    ensures valid { IfSome result (λ f. IsValidPlane f.plane) }
{
    let plane = plane_at(planes, t.first.plane)?;
    let u = point_at(points, t.first.start)?;
    let v = point_at(points, t.second.start)?;
    let w = point_at(points, t.third.start)?;
    Some(Facet {
        plane,
        corners: Corners { u, v, w },
    })
}

/// Whether the facet faces the front of its plane.
pub fn is_proper(facet: &Facet) -> bool
    requires { IsValidPlane facet.now.plane }
    ensures { IsTrue result ↔ IsProper facet.now }
{
    let Corners { u, v, w } = facet.corners;
    faces_front(&facet.plane, &u, &v, &w)
}
