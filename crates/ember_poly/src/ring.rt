// Rings: faces that keep their corners beside their edges.
ghost use Rattle.std.specs.Prelude.{◌≡◌, ◌≤◌, None, Some, IfOk, length, All, if◌then◌else◌};
ghost use Rattle.ember_model.specs.Within.{IsTriWithin};
ghost use Rattle.ember_model.specs.Valid.{IsValidTri};
ghost use Rattle.ember_model.specs.Planes.{support_of};
ghost use Rattle.ember_model.specs.Faces.{is_flat, face_of};
ghost use Rattle.ember_model.specs.Edges.{IsOutline};
ghost use Rattle.ember_poly.specs.Sides.{ring_edges, AreEdges, AreCorners};

use crate::boundary::{Boundary, put_corners, with_room};
use ember_model::{OutOfMemory, Plane, Tri, has_no_normal, main_edges, support_of};
use ember_width::{Narrow, Width};
use std::alloc::Global;
use std::marker::Model;

/// A convex face with its corners, on the narrow grid if no other is named.
#[derive(Drop)]
pub struct Ring<W: Width = Narrow> {
    pub(crate) support: Plane,
    // All edge planes of the face in the order in which they were added, those of its triangle
    // first.
    pub(crate) planes: Vec<Plane>,
    pub(crate) boundary: Boundary<W>,
}

impl<W: Width> Model for Ring<W> {
    ghost use Rattle.ember_model.specs.declared.face.Face.{Face};
    ghost use Rattle.ember_poly.specs.Sides.{IsRing};

    ghost Value = { Face };

    ghost view = { λ r. record { support = r.support; edges = r.planes.items } };

    ghost invariant = { λ r. IsRing W.IsPlane W.spot r.support r.planes.items
        r.boundary.edges.items r.boundary.corners.items r.boundary.plane_indices.items };
}

// Room for this many cuts is reserved in a new ring: one by each wall of a box.
const ROOM: usize = 6;

/// The triangle's face on a grid, and `None` exactly if the triangle's normal is zero.
pub fn of_tri_on<W: Width>(alloc: Global, t: &Tri) -> Result<Option<Ring<W>>, OutOfMemory>
    requires { IsTriWithin W.corner t.now }
    ensures { IfOk result (λ r. r ≡ (if is_flat t.now then None else Some (face_of t.now))) }
{
    let support = support_of(t);
    if has_no_normal(&support) {
        return Ok(None);
    }
    let edge_planes = main_edges(t, &support);
    let planes = with_room(alloc, &edge_planes, ROOM)?;
    let edges = with_room(alloc, &edge_planes, ROOM)?;
    let mut corners = Vec::with_capacity(alloc, ROOM + 3)?;
    put_corners::<W>(&mut corners, t)?;
    let plane_indices = with_room(alloc, &[0, 1, 2], ROOM)?;
    Ok(Some(Ring {
        support,
        planes,
        boundary: Boundary {
            edges,
            corners,
            plane_indices,
        },
    }))
}

/// The triangle's face on the narrow grid, and `None` exactly if the triangle's normal is zero.
pub fn of_tri(alloc: Global, t: &Tri) -> Result<Option<Ring>, OutOfMemory>
    requires { IsValidTri t.now }
    ensures { IfOk result (λ r. r ≡ (if is_flat t.now then None else Some (face_of t.now))) }
{
    of_tri_on::<Narrow>(alloc, t)
}

/// A copy of the ring.
pub fn copy<W: Width>(alloc: Global, r: &Ring<W>) -> Result<Ring<W>, OutOfMemory>
    ensures { IfOk result (λ c. c ≡ r.now) }
{
    let planes = with_room(alloc, r.planes.as_slice(), ROOM)?;
    let boundary = r.boundary.copy(alloc, ROOM)?;
    Ok(Ring {
        support: r.support,
        planes,
        boundary,
    })
}

/// The support plane.
pub fn support<W: Width>(r: &Ring<W>) -> Plane
    ensures value { result ≡ (r.now).support }
    ensures valid { W.IsPlane result }
{
    r.support
}

/// All edge planes of the face, in the order in which they were added: those of its triangle come
/// first.
pub fn planes<W: Width>(r: &Ring<W>) -> &[Plane]
    ensures { result.now ≡ (r.now).edges }
{
    &r.planes
}

/// The edge planes whose edges count, counter-clockwise seen from the front. The first is the one
/// of lowest index.
pub fn edges<W: Width>(r: &Ring<W>) -> &[Plane]
    ensures { AreEdges W.spot r.now result.now }
{
    &r.boundary.edges
}

/// The corners at which these edges start, in the same order.
pub fn corners<W: Width>(r: &Ring<W>) -> &[W::Point]
    ensures { AreCorners W.spot r.now result.now }
{
    &r.boundary.corners
}

/// The edge planes whose edges count, in order around the face, and the corners at which these
/// edges start.
pub fn outline<W: Width>(r: &Ring<W>) -> (&[Plane], &[W::Point])
    ensures outline { IsOutline r.now (ring_edges W.spot result.0.now result.1.now) }
    ensures paired { length result.1.now ≡ length result.0.now }
    ensures three { 3 ≤ length result.0.now }
    ensures valid { All W.IsPlane result.0.now }
{
    (&r.boundary.edges, &r.boundary.corners)
}
