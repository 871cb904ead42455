// The arrays of a mesh.
ghost use Rattle.std.specs.Prelude.{◌≡◌, ◌≤◌, All, IfOk, IfErr, IfSome, map};
ghost use Rattle.ember_model.specs.Valid.{IsValidPlane};
ghost use Rattle.mesh_certificate.specs.Certificate.Certificate.{IsProper};
ghost use Rattle.mesh_grid.specs.Snap.Steps.{IsStep};
ghost use Rattle.ember_arrays.specs.Faults.{IsArraysFault, of_index_fault};
ghost use Rattle.ember_arrays.specs.Solids.{AreArrays};
ghost use Rattle.ember_arrays.specs.Sources.{origin_at, origins_after};

use mesh_arrays::{IndexFault, double_points, index_triples};
use mesh_boolean::{OutputMesh, WritingFault, decimal_effect, decimals, split_decimals};
use mesh_grid::Grid;
use mesh_solid::SolidMesh;
use mesh_written::{shared_edges_by_index, written_places};
use std::alloc::{AllocError, Global};

// A mesh in arrays, with its numbers, as they are with its text. There are no bytes.
#[derive(Drop)]
pub(crate) struct Arrays {
    pub(crate) vertices: Vec<[f64; 3]>,
    pub(crate) triangles: Vec<[u32; 3]>,
    // The index of the exact triangle that each triangle was made from.
    pub(crate) origins: Vec<usize>,
    pub(crate) numbers: OutputMesh,
}

// Why triangles have no array of indices.
fn index_fault(fault: IndexFault) -> WritingFault
    ensures { result ≡ of_index_fault fault }
{
    match fault {
        IndexFault::TooManyVertices => WritingFault::TooManyTriangles,
        IndexFault::OutOfMemory => WritingFault::OutOfMemory,
    }
}

// The number with this index; what is none is the largest.
fn origin_at(rounded: &[usize], piece: usize) -> usize
    ensures { result ≡ origin_at rounded.now piece }
{
    match rounded.get(piece) {
        Some(origin) => *origin,
        None => usize::MAX,
    }
}

fn origins_at(alloc: Global, rounded: &[usize], pieces: &[usize]) -> Result<Vec<usize>, AllocError>
    ensures { IfOk result (λ origins. origins.items ≡ map (origin_at rounded.now) pieces.now) }
{
    let mut origins = Vec::with_capacity(alloc, pieces.len())?;
    for piece in pieces {
        origins.push(origin_at(rounded, *piece))?;
    }
    Ok(origins)
}

// The indices of the exact triangles that triangles were made from: of these, which were rounded, those that pieces
// were cut of.
fn origins_after(
    alloc: Global,
    rounded: Vec<usize>,
    pieces: Option<Vec<usize>>,
) -> Result<Vec<usize>, AllocError>
    ensures { IfOk result (λ origins. origins.items ≡ origins_after rounded.items pieces) }
{
    match pieces {
        Some(pieces) => origins_at(alloc, &rounded, &pieces),
        None => Ok(rounded),
    }
}

// The arrays of a mesh on a grid, rounded to decimals with so many places first.
pub(crate) fn arrays_of(
    alloc: Global,
    mesh: &SolidMesh,
    grid: &Grid,
    digits: Option<u32>,
) -> Result<Arrays, WritingFault>
    requires step { IsStep grid.now.step }
    requires proper { All (IsProper mesh.now.planes.items mesh.now.corners.items) mesh.now.triangles.items }
    requires valid { All IsValidPlane mesh.now.planes.items }
    requires digits { IfSome digits (λ n. n ≤ 17) }
    ensures arrays { IfOk result (AreArrays digits grid.now mesh.now) }
    ensures fault { IfErr result (IsArraysFault digits grid.now mesh.now) }
{
    let written = decimals(alloc, mesh, grid, digits)?;
    let effect = decimal_effect(alloc, mesh, &written, grid, digits)?;
    let indexed = written.mesh.triangles();
    let vanished = mesh.triangles.len() as u64 - indexed.len() as u64;
    let shared = shared_edges_by_index(alloc, indexed)?;
    let split = split_decimals(alloc, &mesh.planes, &written)?;
    let places = written_places(digits, &grid.step);
    let vertices = double_points(alloc, &split.points, places)?;
    let triangles = match index_triples(alloc, &split.triangles) {
        Ok(triangles) => triangles,
        Err(fault) => return Err(index_fault(fault)),
    };
    let is_manifold = split.is_manifold;
    let origins = origins_after(alloc, written.origins, split.origins)?;
    Ok(Arrays {
        vertices,
        origins,
        numbers: OutputMesh {
            bytes: Vec::new(alloc),
            faces: mesh.faces,
            planes: mesh.planes.len() as u64,
            triangles: mesh.triangles.len() as u64,
            vanished,
            written: triangles.len() as u64,
            shared,
            is_manifold,
            effect,
            shown: None,
        },
        triangles,
    })
}
