// Faces as certified triangles.
ghost use Rattle.std.specs.Prelude.{All, IfOk};
ghost use Rattle.ember_width.specs.Broad.{IsBroadPlane};
ghost use Rattle.mesh_certificate.specs.Certificate.Certificate.{IsCertified};
ghost use Rattle.mesh_triangles.specs.PlaneQueries.{IsPlaneExecutor};

use crate::boundaries::in_order_of_planes;
use crate::fault::TrianglesFault;
use crate::query::{PlaneAnswer, PlaneQuery, query_boundaries, query_certificate};
use crate::rounds::{found_triangles, in_order_of_lines};
use crate::tables::TablesView;
use crate::walk::Boundaries;
use ember_model::Plane;
use mesh_certificate::{LineKey, Segment, Triangle, are_triangles_closed};
use mesh_point::SpacePoint;
use std::alloc::Global;

/// Triangles that cut up the faces whose edges are the segments. `planes`, `lines` and `corners`
/// are what the segments' numbers denote. The executor answers for lines and planes. It is a fault
/// if faces of one plane overlap, if the faces aren't closed along a line, or if no certified
/// triangles are found.
pub fn certified_triangles<C: Fn(&PlaneQuery) -> Result<PlaneAnswer, TrianglesFault>>(
    alloc: Global,
    planes: &[Plane],
    lines: &[LineKey],
    corners: &[SpacePoint],
    segments: &[Segment],
    executor: &C,
) -> Result<Vec<Triangle>, TrianglesFault>
    requires valid { All IsBroadPlane planes.now }
    requires executor { IsPlaneExecutor C.pre C.post executor.now }
    ensures { IfOk result (λ ts. IsCertified planes.now lines.now corners.now segments.now ts.items) }
{
    let tables = TablesView {
        planes,
        lines,
        corners,
    };
    let by_line = in_order_of_lines(alloc, segments)?;
    let Boundaries {
        segments: found,
        through,
    } = query_boundaries(&tables, &by_line, executor)?;
    let boundary = in_order_of_planes(found);
    let triangles = found_triangles(alloc, &tables, &by_line, &boundary, through, executor)?;
    drop(by_line);
    if !query_certificate(&tables, &boundary, &triangles, executor)? {
        return Err(TrianglesFault::NotCertified);
    }
    if !are_triangles_closed(alloc, &triangles)? {
        return Err(TrianglesFault::NotCertified);
    }
    Ok(triangles)
}
