// The surfaces of meshes in arrays.
ghost use Rattle.std.specs.Prelude.{◌≡◌, ◌≤◌, All, IfOk, IfErr, length};
ghost use Rattle.mesh_arrays.specs.Arrays.{IsShort};
ghost use Rattle.mesh_grid.specs.Grid.Grids.{IsWithinLimit};
ghost use Rattle.ember_arrays.specs.Faults.{IsSurfacesFault, of_mesh_fault};
ghost use Rattle.ember_arrays.specs.Meshes.{AreSurfacesOf};

use mesh_arrays::{ArrayMesh, surface_of};
use mesh_boolean::BooleanFault;
use mesh_file::FileFault;
use mesh_ply::PlyFault;
use mesh_read::Surface;
use std::alloc::Global;

// The fault of the mesh with this index.
fn mesh_fault(index: u32, fault: PlyFault) -> BooleanFault<'static>
    ensures { result ≡ of_mesh_fault index fault }
{
    match fault {
        PlyFault::OutOfMemory => BooleanFault::OutOfMemory,
        fault => BooleanFault::File(index, FileFault::Ply(fault)),
    }
}

/// The surface of each mesh, in order, or the first fault: see [`surface_of`](mesh_arrays::surface_of). There
/// are at most 64 meshes, of at most 2^28 bytes each.
pub fn surfaces_of(
    alloc: Global,
    meshes: &[ArrayMesh],
) -> Result<Vec<Surface<'static>>, BooleanFault<'static>>
    requires few { length meshes.now ≤ 64 }
    requires short { All IsShort meshes.now }
    ensures surfaces { IfOk result (λ surfaces. AreSurfacesOf meshes.now surfaces.items) }
    ensures within { IfOk result (λ surfaces. All IsWithinLimit surfaces.items) }
    ensures fault { IfErr result (IsSurfacesFault meshes.now) }
{
    let mut surfaces = Vec::with_capacity(alloc, meshes.len())?;
    for (index, mesh) in meshes.iter().enumerate() {
        match surface_of(alloc, mesh) {
            Ok(surface) => surfaces.push(surface)?,
            Err(fault) => return Err(mesh_fault(index as u32, fault)),
        }
    }
    Ok(surfaces)
}
