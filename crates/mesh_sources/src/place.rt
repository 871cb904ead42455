// Places: triangles of the scene that lie in the plane of a facet and aren't apart from it.
ghost use Rattle.std.specs.Prelude.{◌≡◌, ◌≢◌, ◌↔◌, pos, IsTrue};
ghost use Rattle.ember_algebra.specs.Vector.{dot};
ghost use Rattle.ember_model.specs.Edges.{normal};
ghost use Rattle.ember_model.specs.Planes.{value_at};
ghost use Rattle.ember_model.specs.Valid.{IsValidCorner, IsValidPlane, IsValidTri};
ghost use Rattle.mesh_sources.specs.Places.{spot_at, spots_of, spots_in_order, spots_turned, is_turned, facing, AreOn};
ghost use Rattle.mesh_sources.specs.Places.{AreApart, IsProper, IsPlace};
ghost use Rattle.mesh_sources.specs.Spans.{IsBoxOver};

use crate::apart::has_outer;
use crate::boxes::box_around;
use crate::corners::corners_of;
use crate::facet::Facet;
use crate::spans::SpaceBox;
use ember_model::{Corner, Plane, Tri, support_of};

#[tactic(none)]
fn value_at(plane: &Plane, c: &Corner) -> i64
    requires plane { IsValidPlane plane.now }
    requires corner { IsValidCorner c.now }
    ensures { result ≡ value_at plane.now (spot_at c.now) }
{
    plane.a * c.x as i64 + plane.b * c.y as i64 + plane.c * c.z as i64 - plane.d
}

fn is_zero(x: i64) -> bool
    ensures { IsTrue result ↔ (x ≡ pos 0) }
{
    x == 0
}

fn is_corner_on(plane: &Plane, c: &Corner) -> bool
    requires plane { IsValidPlane plane.now }
    requires corner { IsValidCorner c.now }
    ensures { IsTrue result ↔ (value_at plane.now (spot_at c.now) ≡ pos 0) }
{
    is_zero(value_at(plane, c))
}

fn is_on(plane: &Plane, t: &Tri) -> bool
    requires plane { IsValidPlane plane.now }
    requires tri { IsValidTri t.now }
    ensures { IsTrue result ↔ AreOn plane.now (spots_in_order t.now) }
{
    is_corner_on(plane, &t.a) && is_corner_on(plane, &t.b) && is_corner_on(plane, &t.c)
}

#[tactic(none)]
fn dot(p: &Plane, q: &Plane) -> i64
    requires p { IsValidPlane p.now }
    requires q { IsValidPlane q.now }
    ensures { result ≡ dot (normal p.now) (normal q.now) }
{
    p.a * q.a + p.b * q.b + p.c * q.c
}

fn facing(plane: &Plane, t: &Tri) -> i64
    requires plane { IsValidPlane plane.now }
    requires tri { IsValidTri t.now }
    ensures { result ≡ facing plane.now t.now }
{
    dot(plane, &support_of(t))
}

/// Whether a triangle that lies in the plane faces its back.
pub fn is_turned(plane: &Plane, t: &Tri) -> bool
    requires plane { IsValidPlane plane.now }
    requires tri { IsValidTri t.now }
    ensures { result ≡ is_turned plane.now t.now }
{
    facing(plane, t) < 0
}

// Whether the facet and a triangle of its plane, whose box is around it, are apart.
fn are_apart(facet: &Facet, around: &SpaceBox, t: &Tri) -> bool
    requires proper { IsProper facet.now }
    requires plane { IsValidPlane facet.now.plane }
    requires tri { IsValidTri t.now }
    requires lies { AreOn facet.now.plane (spots_in_order t.now) }
    requires around { IsBoxOver around.now (spots_of facet.now.corners) }
    ensures { IsTrue result ↔ AreApart facet.now.plane (spots_of facet.now.corners)
        (spots_turned (is_turned facet.now.plane t.now) t.now) }
{
    if !box_around(t).meets(around) {
        return true;
    }
    let other = corners_of(t, is_turned(&facet.plane, t));
    has_outer(&facet.plane, &facet.corners, &other)
        || has_outer(&facet.plane, &other, &facet.corners)
}

/// Whether the triangle is a place of the facet, which is proper and has its corners in the box.
pub fn is_place(facet: &Facet, around: &SpaceBox, t: &Tri) -> bool
    requires proper { IsProper facet.now }
    requires plane { IsValidPlane facet.now.plane }
    requires tri { IsValidTri t.now }
    requires around { IsBoxOver around.now (spots_of facet.now.corners) }
    ensures { IsTrue result ↔ IsPlace facet.now t.now }
{
    if !is_on(&facet.plane, t) {
        return false;
    }
    if is_zero(facing(&facet.plane, t)) {
        return false;
    }
    !are_apart(facet, around, t)
}
