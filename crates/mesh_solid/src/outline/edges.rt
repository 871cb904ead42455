// Edges that start or end off their planes.
ghost use Rattle.std.specs.Prelude.{◌↔◌, IsTrue, map};
ghost use Rattle.ember_point.specs.Points.{spot_of};
ghost use Rattle.ember_reread.specs.Cornered.{edge_of};
ghost use Rattle.mesh_solid.specs.Outline.Rounds.{HasEdgeOff, HasEdgeOffRound, IsOff};

use crate::outline::sides::is_on;
use ember_point::Meet;
use ember_reread::CorneredEdge;

// Whether the edge starts or ends off its plane.
fn is_off(edge: &CorneredEdge, end: &Meet) -> bool
    ensures { IsTrue result ↔ IsOff (edge_of edge.now) (spot_of end.now) }
{
    !is_on(&edge.plane, &edge.start) || !is_on(&edge.plane, end)
}

// Whether some edge does, where each ends at the start of the next, and the last at this corner.
fn has_edge_off(last: &Meet, edges: &[CorneredEdge]) -> bool
    ensures { IsTrue result ↔ HasEdgeOff (spot_of last.now) (map edge_of edges.now) }
{
    let mut rest = edges;
    while let Some((edge, behind)) = rest.split_first() {
        let end = match behind.split_first() {
            Some((next, _)) => next.start,
            None => *last,
        };
        if is_off(edge, &end) {
            return true;
        }
        rest = behind;
    }
    false
}

/// Whether some edge of a face starts or ends off its own plane. Each edge ends at the start of the
/// next, and the last one at the start of the first.
pub fn has_edge_off_round(edges: &[CorneredEdge]) -> bool
    ensures { IsTrue result ↔ HasEdgeOffRound (map edge_of edges.now) }
{
    match edges.split_first() {
        Some((first, _)) => has_edge_off(&first.start, edges),
        None => false,
    }
}
