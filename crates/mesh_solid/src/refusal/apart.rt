// Whether faces of one plane are apart.
ghost use Rattle.std.specs.Prelude.{◌≡◌, not};
ghost use Rattle.ember_algebra.specs.Sign.{is_negative};
ghost use Rattle.ember_model.specs.Planes.{value_at};
ghost use Rattle.ember_model.specs.Valid.{IsValidPlane};
ghost use Rattle.ember_point.specs.Points.{spot_of};
ghost use Rattle.ember_reread.specs.Cornered.{face_of};
ghost use Rattle.mesh_solid.specs.Refusal.Overlaps.{are_apart, has_outer};
ghost use Rattle.mesh_solid.specs.Refusal.Searches.{has_outer_edge, start_beyond};

use ember_algebra::Sign;
use ember_model::Plane;
use ember_point::side;
use ember_reread::{CorneredEdge, CorneredFace};

// Whether the edge starts on the plane or in front of it.
fn starts_beyond(plane: &Plane, edge: &CorneredEdge) -> bool
    requires { IsValidPlane plane.now }
    ensures { result ≡ not (is_negative (value_at plane.now (spot_of edge.now.start))) }
{
    !matches!(side(plane, &edge.start), Sign::Neg)
}

// Whether all others start on the outer side of the edge or on it.
fn start_beyond(edge: &CorneredEdge, others: &[CorneredEdge]) -> bool
    ensures { result ≡ start_beyond edge.now.plane others.now }
{
    others.iter().all(|other| starts_beyond(&edge.plane, other))
}

// Whether all others start so for some edge.
fn has_outer_edge(edges: &[CorneredEdge], others: &[CorneredEdge]) -> bool
    ensures { result ≡ has_outer_edge edges.now others.now }
{
    edges.iter().any(|edge| start_beyond(edge, others))
}

// Whether an edge of the first face has all of the second one on its outer side or on it.
fn has_outer(first: &CorneredFace, second: &CorneredFace) -> bool
    ensures { result ≡ has_outer (face_of first.now) (face_of second.now) }
{
    has_outer_edge(&first.edges, &second.edges)
}

/// Whether an edge of one of the faces has all of the other one on its outer side or on it.
pub fn are_apart(first: &CorneredFace, second: &CorneredFace) -> bool
    ensures { result ≡ are_apart (face_of first.now) (face_of second.now) }
{
    has_outer(first, second) || has_outer(second, first)
}
