// The surface of a mesh in arrays.
ghost use Rattle.std.specs.Prelude.{◌≡◌, ◌≤◌, ◌<◌, ◌↔◌, All, IsTrue, IfOk, IfErr, None, length, map};
ghost use Rattle.std.specs.List.{find};
ghost use Rattle.std.specs.Option.{option_map};
ghost use Rattle.ember_model.specs.Limits.{most_bytes};
ghost use Rattle.mesh_read.specs.Surface.Surfaces.{IsWithin, is_facet_too_large, point_of};
ghost use Rattle.mesh_arrays.specs.Arrays.{ArePointsOf, IsShort, IsSurfaceOf, facets_from, point_of_bits};
ghost use Rattle.mesh_arrays.specs.Faults.{IsMeshFault, IsTriangleFault, IsVertexFault};

use crate::mesh::ArrayMesh;
use mesh_number::binary64;
use mesh_ply::PlyFault;
use mesh_read::{Facet, Surface, Vertex, as_mesh};
use std::alloc::Global;

// The vertex whose coordinates are the doubles with these bits, if all are finite.
fn vertex_at(bits: &[u64; 3]) -> Option<Vertex<'static>>
    ensures { option_map point_of result ≡ point_of_bits bits.now }
{
    let x = binary64(bits[0])?;
    let y = binary64(bits[1])?;
    let z = binary64(bits[2])?;
    Some(Vertex { x, y, z })
}

// All vertices, or the first that isn't finite.
fn vertices_of(alloc: Global, vertices: &[[u64; 3]]) -> Result<Vec<Vertex<'static>>, PlyFault>
    requires { length vertices.now ≤ most_bytes }
    ensures points { IfOk result (λ found. ArePointsOf vertices.now (map point_of found.items)) }
    ensures fault { IfErr result (IsVertexFault vertices.now) }
{
    let Ok(mut found) = Vec::with_capacity(alloc, vertices.len()) else {
        return Err(PlyFault::OutOfMemory);
    };
    for (index, bits) in vertices.iter().enumerate() {
        let Some(vertex) = vertex_at(bits) else {
            return Err(PlyFault::NotFinite(index as u32 + 1));
        };
        if found.push(vertex).is_err() {
            return Err(PlyFault::OutOfMemory);
        }
    }
    Ok(found)
}

// Whether each of three indices is below this number.
fn are_below(corners: &[u32; 3], count: usize) -> bool
    ensures { IsTrue result ↔ All (λ corner. corner < count) corners.now }
{
    corners.iter().all(|corner| (*corner as usize) < count)
}

// All triangles, or the first with a corner that is none of so many vertices.
fn facets_of(alloc: Global, triangles: &[[u32; 3]], count: usize) -> Result<Vec<Facet>, PlyFault>
    requires { length triangles.now ≤ most_bytes }
    ensures facets { IfOk result (λ facets. facets.items ≡ facets_from 1 triangles.now) }
    ensures within { IfOk result (λ facets. All (IsWithin count) facets.items) }
    ensures fault { IfErr result (IsTriangleFault triangles.now count) }
{
    let Ok(mut facets) = Vec::with_capacity(alloc, triangles.len()) else {
        return Err(PlyFault::OutOfMemory);
    };
    for (index, corners) in triangles.iter().enumerate() {
        let place = index as u32 + 1;
        if !are_below(corners, count) {
            return Err(PlyFault::NoSuchVertex(place));
        }
        let facet = Facet {
            corners: *corners,
            place,
        };
        let Ok(()) = facets.push(facet) else {
            return Err(PlyFault::OutOfMemory);
        };
    }
    Ok(facets)
}

/// The surface of a mesh in arrays of at most 2^28 bytes. Each coordinate is taken exactly. The place of a
/// triangle is its number, from 1. There may be none. A mesh in arrays has the faults of a PLY that holds
/// it; of several the first of these is reported:
///
/// 1. The first vertex with a coordinate that is infinite or NaN.
/// 2. The first triangle with a corner that is no vertex.
/// 3. The first triangle with a coordinate of 10^15 or more in size.
pub fn surface_of(alloc: Global, mesh: &ArrayMesh) -> Result<Surface<'static>, PlyFault>
    requires { IsShort mesh.now }
    ensures surface { IfOk result (IsSurfaceOf mesh.now) }
    ensures within_limit { IfOk result (λ s. find (is_facet_too_large s.vertices.items) s.facets.items ≡ None) }
    ensures fault { IfErr result (IsMeshFault mesh.now) }
{
    let vertices = match vertices_of(alloc, mesh.vertices) {
        Ok(vertices) => vertices,
        Err(fault) => return Err(fault),
    };
    let facets = match facets_of(alloc, mesh.triangles, vertices.len()) {
        Ok(facets) => facets,
        Err(fault) => return Err(fault),
    };
    let surface = Surface { vertices, facets };
    if surface.facets.is_empty() {
        return Ok(surface);
    }
    match as_mesh(surface) {
        Ok(surface) => Ok(surface),
        Err(flaw) => Err(PlyFault::from(flaw)),
    }
}
