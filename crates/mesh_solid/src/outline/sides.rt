// On which side of planes corners lie.
ghost use Rattle.std.specs.Prelude.{◌≡◌};
ghost use Rattle.std.specs.List.{list_all};
ghost use Rattle.ember_algebra.specs.Sign.{is_negative, is_zero};
ghost use Rattle.ember_model.specs.Planes.{value_at};
ghost use Rattle.ember_model.specs.Valid.{IsValidPlane};
ghost use Rattle.ember_point.specs.Points.{spot_of};
ghost use Rattle.ember_reread.specs.declared.cornered_face.CorneredEdge.{CorneredEdge};
ghost use Rattle.mesh_solid.specs.Outline.Sides.{start_on};

use ember_algebra::Sign;
use ember_model::Plane;
use ember_point::{Meet, side};
use ember_reread::{CorneredEdge, CorneredFace};

/// Whether the corner is on the plane.
pub fn is_on(plane: &Plane, corner: &Meet) -> bool
    requires { IsValidPlane plane.now }
    ensures { result ≡ is_zero (value_at plane.now (spot_of corner.now)) }
{
    matches!(side(plane, corner), Sign::Zero)
}

/// Whether all corners of the face are on its plane.
pub fn are_on_face(face: &CorneredFace) -> bool
    ensures { result ≡ start_on face.now.support face.now.edges.items }
{
    face.edges
        .iter()
        .all(|edge| is_on(&face.support, &edge.start))
}

// Whether the corner is behind the plane of the edge.
fn is_behind(edge: &CorneredEdge, corner: &Meet) -> bool
    ensures { result ≡ is_negative (value_at edge.now.plane (spot_of corner.now)) }
{
    matches!(side(&edge.plane, corner), Sign::Neg)
}

/// Whether the other edges all start behind the plane of `edge`, and none of them on it.
pub fn start_behind(edge: &CorneredEdge, others: &[CorneredEdge]) -> bool
    ensures { result ≡ list_all (λ (e : CorneredEdge). is_negative (value_at edge.now.plane (spot_of e.start)))
        others.now }
{
    others.iter().all(|other| is_behind(edge, &other.start))
}

/// Whether the corner is behind the planes of all of the edges, and on none of them.
pub fn lies_behind(corner: &Meet, edges: &[CorneredEdge]) -> bool
    ensures { result ≡ list_all (λ (e : CorneredEdge). is_negative (value_at e.plane (spot_of corner.now)))
        edges.now }
{
    edges.iter().all(|edge| is_behind(edge, corner))
}
