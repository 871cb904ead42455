// Who answers queries about lines and planes: the calling thread alone, or several threads.
ghost use Rattle.std.specs.Prelude.{◌≡◌, ◌≤◌, All, IfOk};
ghost use Rattle.mesh_triangles.specs.PlaneQueries.{IsPlaneAnswer, IsPlaneQuery};

use crate::boundaries::boundaries_of;
use crate::cutting::cut_parts;
use crate::fault::TrianglesFault;
use crate::query::{PlaneAnswer, PlaneQuery};
use crate::shares::{boundaries_by, certified_by, cut_by};
use mesh_certificate::are_parts_certified;
use std::alloc::Global;
use std::thread::Threads;

/// The answer to a query about planes. This thread alone finds it.
pub fn answer_planes_alone(alloc: Global, query: &PlaneQuery) -> Result<PlaneAnswer, TrianglesFault>
    requires { IsPlaneQuery query.now }
    ensures { IfOk result (IsPlaneAnswer query.now) }
{
    match *query {
        PlaneQuery::Boundaries(tables, by_line) => {
            Ok(PlaneAnswer::Boundaries(boundaries_of(alloc, &tables, by_line, &[])?))
        }
        PlaneQuery::Cuts(tables, parts, first_free_line) => {
            Ok(PlaneAnswer::Cuts(cut_parts(alloc, &tables, parts, first_free_line)?))
        }
        PlaneQuery::Certificate(tables, boundary, triangles) => {
            let certified = are_parts_certified(
                alloc,
                tables.planes,
                tables.lines,
                tables.corners,
                boundary,
                triangles,
            )?;
            Ok(PlaneAnswer::Certificate(certified))
        }
    }
}

/// The answer to a query about planes, by 1 to 64 threads, of which this one is the first. Each takes
/// some lines or planes. Tests show that the answer is the same for each number of them.
pub fn answer_planes_by_workers<R: Threads + Sync>(
    rt: &R,
    alloc: Global,
    workers: u32,
    query: &PlaneQuery,
) -> Result<PlaneAnswer, TrianglesFault>
    requires workers { (1 ≤ workers) × (workers ≤ 64) }
    requires query { IsPlaneQuery query.now }
    ensures { IfOk result (IsPlaneAnswer query.now) }
{
    match *query {
        PlaneQuery::Boundaries(tables, by_line) => Ok(PlaneAnswer::Boundaries(boundaries_by(
            rt, alloc, workers, &tables, by_line,
        )?)),
        PlaneQuery::Cuts(tables, parts, first_free_line) => Ok(PlaneAnswer::Cuts(cut_by(
            rt,
            alloc,
            workers,
            &tables,
            parts,
            first_free_line,
        )?)),
        PlaneQuery::Certificate(tables, boundary, triangles) => {
            let certified = certified_by(rt, alloc, workers, &tables, boundary, triangles)?;
            Ok(PlaneAnswer::Certificate(certified))
        }
    }
}
