// Triangles by indices of 32 bits.
ghost use Rattle.std.specs.Prelude.{◌≡◌, ◌≤◌, ◌<◌, ◌^◌, ◌↔◌, IfOk, IfErr, IfSome, None, map};
ghost use Rattle.mesh_arrays.specs.Indices.{HasLongIndex, IsIndexFault, corners_of};

use crate::fault::IndexFault;
use mesh_write::IndexedTriangle;
use std::alloc::Global;

// The indices of a triangle's corners, if each has 32 bits at most.
fn triple_of(triangle: &IndexedTriangle) -> Option<[u32; 3]>
    ensures triple { IfSome result (λ triple. triple ≡ corners_of triangle.now) }
    ensures none { result ≡ None → HasLongIndex triangle.now }
{
    let a = u32::try_from(triangle.a).ok()?;
    let b = u32::try_from(triangle.b).ok()?;
    let c = u32::try_from(triangle.c).ok()?;
    Some([a, b, c])
}

/// The indices of the corners of each triangle, in order. It is a fault if one of them is 2^32 or more.
pub fn index_triples(
    alloc: Global,
    triangles: &[IndexedTriangle],
) -> Result<Vec<[u32; 3]>, IndexFault>
    ensures triples { IfOk result (λ found. found.items ≡ map corners_of triangles.now) }
    ensures fault { IfErr result (IsIndexFault triangles.now) }
{
    let mut found = Vec::with_capacity(alloc, triangles.len())?;
    for triangle in triangles {
        let Some(triple) = triple_of(triangle) else {
            return Err(IndexFault::TooManyVertices);
        };
        found.push(triple)?;
    }
    Ok(found)
}
