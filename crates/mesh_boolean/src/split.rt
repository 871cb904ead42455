// Rounded triangles over vertices of which some are doubled.
ghost use Rattle.std.specs.Prelude.{List, IfOk};
ghost use Rattle.mesh_boolean.specs.Splits.{AreDecimalsOver, IfSplitOver};
ghost use Rattle.mesh_write.specs.Vertices.Vertices.{IsMeshOf};
ghost use Rattle.mesh_write.specs.declared.vertices.point.DecimalTriangle.{DecimalTriangle};

use ember_model::Plane;
use mesh_manifold::{CheckedSplit, CutMesh, SplitMesh, cut_pinched, points_of, split_vertices};
use mesh_write::{DecimalPoint, IndexedMesh, IndexedTriangle};
use mesh_written::DecimalMesh;
use std::alloc::{AllocError, Global};

/// Triangles over points, some of which are there more than once.
#[derive(Drop)]
pub struct SplitDecimals {
    pub points: Vec<DecimalPoint>,
    pub triangles: Vec<IndexedTriangle>,
    /// Whether each edge has two triangles.
    pub is_manifold: bool,
    /// For each triangle the index of the triangle that it is cut of, if some are cut.
    pub origins: Option<Vec<usize>>,
}

// A mesh over vertices of which some are doubled.
fn split_over(
    alloc: Global,
    mesh: &IndexedMesh,
    split: CheckedSplit,
    triangle_origins: Option<Vec<usize>>,
) -> Result<SplitDecimals, AllocError>
    ensures { IfSplitOver mesh.now split triangle_origins (λ ts. IfOk result (AreDecimalsOver ts)) }
{
    let is_manifold = split.is_manifold;
    let SplitMesh { origins, triangles } = split.mesh;
    let points = points_of(alloc, mesh.vertices(), &origins)?;
    Ok(SplitDecimals {
        points,
        triangles,
        is_manifold,
        origins: triangle_origins,
    })
}

/// A rounded mesh over vertices that are doubled where parts only touch. If an edge still has more
/// than two triangles, triangles are cut before; if that is no help, they stay whole. `planes` is the
/// table to which the numbers of the mesh's planes refer. The one error is out-of-memory.
pub fn split_decimals(
    alloc: Global,
    planes: &[Plane],
    written: &DecimalMesh,
) -> Result<SplitDecimals, AllocError>
    ensures { (ts : List DecimalTriangle) → IsMeshOf ts written.now.mesh → IfOk result (AreDecimalsOver ts) }
{
    let mesh = &written.mesh;
    let split = split_vertices(
        alloc,
        planes,
        &written.planes,
        mesh.vertices(),
        mesh.triangles(),
    )?;
    if split.is_manifold {
        return split_over(alloc, mesh, split, None);
    }
    let CutMesh {
        mesh: pieces,
        origins,
        planes: numbers,
    } = cut_pinched(alloc, mesh, &written.planes, &split.mesh)?;
    let again = split_vertices(
        alloc,
        planes,
        &numbers,
        pieces.vertices(),
        pieces.triangles(),
    )?;
    if again.is_manifold {
        return split_over(alloc, &pieces, again, Some(origins));
    }
    split_over(alloc, mesh, split, None)
}
