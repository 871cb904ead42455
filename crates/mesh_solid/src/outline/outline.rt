// Whether the written edges of a face are its outline.
ghost use Rattle.std.specs.Prelude.{IfErr, OnOk};
ghost use Rattle.ember_reread.specs.Cornered.{face_of};
ghost use Rattle.mesh_solid.specs.Outline.Rounds.{IsOutlineFault, IsRound};

use crate::outline::edges::has_edge_off_round;
use crate::outline::fault::OutlineFault;
use crate::outline::round::is_round;
use crate::outline::sides::are_on_face;
use ember_reread::CorneredFace;
use std::alloc::Global;

/// Checks that the edges of the face, as they are written, lead once around a convex polygon. Then
/// they are the outline of the face: see
/// [`round_faces_are_outlined`](crate::outline::round_faces_are_outlined). The first fault is reported of: a
/// corner off the face's plane, an edge with a corner off its own plane, and edges that don't lead
/// around. It compares each corner with each edge, so it takes a number of steps that grows with the
/// square of the number of edges.
pub fn check_outline(alloc: Global, face: &CorneredFace) -> Result<(), OutlineFault>
    ensures round { OnOk result (IsRound (face_of face.now)) }
    ensures fault { IfErr result (IsOutlineFault (face_of face.now)) }
{
    if !are_on_face(face) {
        return Err(OutlineFault::OffPlane);
    }
    if has_edge_off_round(&face.edges) {
        return Err(OutlineFault::OffEdge);
    }
    if is_round(alloc, &face.support, &face.edges)? {
        Ok(())
    } else {
        Err(OutlineFault::NotRound)
    }
}
