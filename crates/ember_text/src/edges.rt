// The lines of a face's support plane and of its edges.
ghost use Rattle.std.specs.Prelude.{◌≡◌, ◌≤◌, ◌++◌, length, All, OnOk, OnErr};
ghost use Rattle.ember_algebra.specs.Relations.{Each};
ghost use Rattle.ember_leaf.specs.Written.{HasGrown};
ghost use Rattle.ember_model.specs.Valid.{IsValidPlane};
ghost use Rattle.ember_model.specs.FaceFiles.{support_line};
ghost use Rattle.ember_point.specs.Points.{spot_of};
ghost use Rattle.ember_poly.specs.Sides.{ring_edges};
ghost use Rattle.ember_text.specs.Texts.{Extends, IsEdgeText, edge_with, turned};

use crate::line::put_line;
use ember_model::{OutOfMemory, Plane};
use ember_point::{Meet, reduce};

/// Appends the line of a face's support plane `support`, with its number of edges. If memory is
/// short, nothing is appended.
pub fn put_support(support: &Plane, count: usize, out: &mut Vec<u8>) -> Result<(), OutOfMemory>
    requires { IsValidPlane support.now }
    ensures ok { OnOk result (out.new.items ≡ out.old.items ++ support_line support.now count) }
    ensures fault { OnErr result (out.new.items ≡ out.old.items) }
{
    let numbers = [
        support.a as i128,
        support.b as i128,
        support.c as i128,
        support.d as i128,
        count as i128,
    ];
    put_line(b'f', &numbers, out)
}

// Appends the line of an edge: its edge plane, and its start corner in lowest terms.
fn put_edge(edge: &Plane, corner: &Meet, out: &mut Vec<u8>) -> Result<(), OutOfMemory>
    requires { IsValidPlane edge.now }
    ensures ok { OnOk result (
        HasGrown (IsEdgeText (edge_with edge.now corner.now)) out.old.items out.new.items) }
    ensures fault { OnErr result (out.new.items ≡ out.old.items) }
{
    let start = reduce(corner);
    let numbers = [
        edge.a as i128,
        edge.b as i128,
        edge.c as i128,
        edge.d as i128,
        start.x,
        start.y,
        start.z,
        start.w,
    ];
    put_line(b'e', &numbers, out)
}

/// Appends the lines of all edges, in order. `corners[i]` is the start of edge `i`. If memory is
/// short, only some of the bytes may be appended.
pub fn put_edges(edges: &[Plane], corners: &[Meet], out: &mut Vec<u8>) -> Result<(), OutOfMemory>
    requires paired { length corners.now ≡ length edges.now }
    requires valid { All IsValidPlane edges.now }
    ensures ok { OnOk result (
        HasGrown (Each IsEdgeText (ring_edges spot_of edges.now corners.now)) out.old.items out.new.items) }
    ensures fault { OnErr result (Extends out.old.items out.new.items) }
{
    for i in 0..edges.len() {
        put_edge(&edges[i], &corners[i], out)?;
    }
    Ok(())
}

/// Appends the lines of all edges in the order in which they lead around the face seen from behind:
/// the first edge first, then the others from the last one on. Each starts at the corner at which
/// it ended. If memory is short, only some of the bytes may be appended.
pub fn put_turned_edges(
    edges: &[Plane],
    corners: &[Meet],
    out: &mut Vec<u8>,
) -> Result<(), OutOfMemory>
    requires paired { length corners.now ≡ length edges.now }
    requires two { 2 ≤ length edges.now }
    requires valid { All IsValidPlane edges.now }
    ensures ok { OnOk result (
        HasGrown (Each IsEdgeText (turned (ring_edges spot_of edges.now corners.now))) out.old.items out.new.items) }
    ensures fault { OnErr result (Extends out.old.items out.new.items) }
{
    put_edge(&edges[0], &corners[1], out)?;
    let mut next = edges.len() - 1;
    put_edge(&edges[next], &corners[0], out)?;
    while next > 1 {
        next -= 1;
        put_edge(&edges[next], &corners[next + 1], out)?;
    }
    Ok(())
}
