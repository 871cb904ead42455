// What an edge has in the tables.
ghost use Rattle.std.specs.Prelude.{IfOk, IfErr};
ghost use Rattle.ember_model.specs.declared.plane.Plane.{Plane};
ghost use Rattle.ember_width.specs.Broad.{IsBroadPlane};
ghost use Rattle.mesh_certificate.specs.Certificate.Facing.{spot_of};
ghost use Rattle.mesh_solid.specs.Tables.Edges.{IsBroadEdge, face_edge};
ghost use Rattle.mesh_solid.specs.Tables.Tables.{IsCorner, IsKeyed, IsEdgeFault};

use crate::tables::corner::corner_of;
use crate::tables::face_edge::FaceEdge;
use crate::tables::fault::TableFault;
use ember_model::Plane;
use mesh_certificate::{LineKey, line_key};
use mesh_point::SpacePoint;

/// The key of an edge's line, and the corner in which the edge ends.
#[derive(Clone, Copy)]
pub struct Keyed {
    pub line: LineKey,
    pub end: SpacePoint,
}

/// The corner in which an edge starts. `NoLine` if its plane is parallel to the face, and
/// `NoCorner` if it doesn't start in one point within the limits of a `SpacePoint`.
pub fn start_of(
    face: usize,
    support: &Plane,
    before: &Plane,
    plane: &Plane,
) -> Result<SpacePoint, TableFault>
    requires support { IsBroadPlane support.now }
    requires before { IsBroadPlane before.now }
    requires plane { IsBroadPlane plane.now }
    ensures ok { IfOk result (λ c. IsCorner support.now before.now plane.now (spot_of c)) }
    ensures fault { (after : Plane) →
        IfErr result (IsEdgeFault (face_edge face support.now before.now plane.now after)) }
{
    if let Some(start) = corner_of(support, before, plane) {
        return Ok(start);
    }
    match line_key(support, plane) {
        Some(_) => Err(TableFault::NoCorner(face)),
        None => Err(TableFault::NoLine(face)),
    }
}

/// The key of an edge's line, and the corner in which it ends. `NoLine` if its plane is parallel to
/// the face, and `NoCorner` if it doesn't end in one point within the limits of a `SpacePoint`.
pub fn keys_of(edge: &FaceEdge) -> Result<Keyed, TableFault>
    requires { IsBroadEdge edge.now }
    ensures ok { IfOk result (λ k. IsKeyed edge.now k) }
    ensures fault { IfErr result (λ e. IsEdgeFault edge.now e) }
{
    let Some(line) = line_key(&edge.support, &edge.plane) else {
        return Err(TableFault::NoLine(edge.face));
    };
    let Some(end) = corner_of(&edge.support, &edge.plane, &edge.after) else {
        return Err(TableFault::NoCorner(edge.face));
    };
    Ok(Keyed { line, end })
}
