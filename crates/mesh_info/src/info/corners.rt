// The corners of triangles, in trillionths of the unit.
ghost use Rattle.std.specs.Prelude.{◌≡◌, map, IfOk};
ghost use Rattle.mesh_write.specs.Vertices.Vertices.{point_at, IsMeshOf};
ghost use Rattle.mesh_info.specs.Info.Corners.{trillionths, place_of, places_of, triangle_over, triangles_of};

use mesh_grid::{GridStep, cell};
use mesh_number::{Number, is_below_limit};
use mesh_read::{Facet, Surface, Vertex};
use mesh_write::{DecimalPoint, DecimalTriangle, IndexedMesh};
use std::alloc::{AllocError, Global};

// A number in trillionths, rounded to the nearest whole number of them.
fn trillionths(number: &Number) -> i128
    ensures { result ≡ trillionths number.now }
{
    if !is_below_limit(number) {
        return 0;
    }
    let trillionth = GridStep {
        numerator: 1,
        denominator: 1_000_000_000_000,
    };
    cell(number, &trillionth)
}

fn place_of(vertex: &Vertex) -> DecimalPoint
    ensures { result ≡ place_of vertex.now }
{
    DecimalPoint {
        x: trillionths(&vertex.x),
        y: trillionths(&vertex.y),
        z: trillionths(&vertex.z),
    }
}

// Where each vertex lies.
fn places_of(alloc: Global, vertices: &[Vertex]) -> Result<Vec<DecimalPoint>, AllocError>
    ensures { IfOk result (λ places. places.items ≡ map place_of vertices.now) }
{
    let mut places = Vec::with_capacity(alloc, vertices.len())?;
    for vertex in vertices {
        places.push(place_of(vertex))?;
    }
    Ok(places)
}

// The place with this index; what is no vertex, of no triangle, is at zero.
pub(crate) fn point_at(points: &[DecimalPoint], index: usize) -> DecimalPoint
    ensures { result ≡ point_at points.now index }
{
    match points.get(index) {
        Some(point) => *point,
        None => DecimalPoint { x: 0, y: 0, z: 0 },
    }
}

fn triangle_over(places: &[DecimalPoint], facet: &Facet) -> DecimalTriangle
    ensures { result ≡ triangle_over places.now facet.now }
{
    let [a, b, c] = facet.corners;
    DecimalTriangle {
        a: point_at(places, a as usize),
        b: point_at(places, b as usize),
        c: point_at(places, c as usize),
    }
}

// The triangles over positions: each position is one vertex.
pub(crate) fn mesh_of(alloc: Global, surface: &Surface) -> Result<IndexedMesh, AllocError>
    ensures { IfOk result (IsMeshOf (triangles_of surface.now)) }
{
    let places = places_of(alloc, &surface.vertices)?;
    let mut mesh = IndexedMesh::new(alloc);
    for facet in &surface.facets {
        mesh.push(&triangle_over(&places, facet))?;
    }
    Ok(mesh)
}

/// The triangles of a surface in order, each coordinate of a corner in trillionths of the unit,
/// rounded to the nearest whole number of them. Its one error is out-of-memory.
pub fn triangles_of(alloc: Global, surface: &Surface) -> Result<Vec<DecimalTriangle>, AllocError>
    ensures { IfOk result (λ triangles. triangles.items ≡ triangles_of surface.now) }
{
    let places = places_of(alloc, &surface.vertices)?;
    let mut triangles = Vec::with_capacity(alloc, surface.facets.len())?;
    for facet in &surface.facets {
        triangles.push(triangle_over(&places, facet))?;
    }
    Ok(triangles)
}
