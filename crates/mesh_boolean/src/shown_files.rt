// From which file each triangle is that a page shows.
ghost use Rattle.std.specs.Prelude.{◌≡◌, ◌≤◌, All, IfOk, IfErr, length, map};
ghost use Rattle.ember_model.specs.Limits.{most_triangles};
ghost use Rattle.ember_model.specs.Valid.{IsValidPlane, IsValidTri};
ghost use Rattle.mesh_certificate.specs.Certificate.Certificate.{IsProper};
ghost use Rattle.mesh_grid.specs.Snap.Steps.{IsStep};
ghost use Rattle.mesh_solid.specs.Mesh.Asked.{IsThereIf};
ghost use Rattle.mesh_written.specs.Floats.{IsFloatFault};
ghost use Rattle.mesh_boolean.specs.ShownFiles.{AreShownFiles, file_of};
ghost use Rattle.mesh_boolean.specs.WritingFaults.{IsWritingFault};
ghost use Rattle.mesh_boolean.specs.declared.wanted.MeshFormat.{MeshFormat};

use crate::writing_fault::WritingFault;
use ember_model::Tri;
use mesh_grid::Grid;
use mesh_solid::SolidMesh;
use mesh_sources::{Source, sources_of};
use mesh_written::{PlaceFault, float_points, numbers_over};
use std::alloc::{AllocError, Global};

fn file_of(scene: &[Tri], source: &Option<Source>) -> usize
    ensures { result ≡ file_of scene.now source.now }
{
    let Some(source) = source else {
        return 0;
    };
    match scene.get(source.triangle as usize) {
        Some(tri) => tri.mesh as usize,
        None => 0,
    }
}

fn files_of(
    alloc: Global,
    scene: &[Tri],
    sources: &[Option<Source>],
) -> Result<Vec<usize>, AllocError>
    ensures { IfOk result (λ files. files.items ≡ map (file_of scene.now) sources.now) }
{
    let mut files = Vec::with_capacity(alloc, sources.len())?;
    for source in sources {
        files.push(file_of(scene, source))?;
    }
    Ok(files)
}

// For each triangle of the mesh that doesn't vanish when it is rounded, the number of the file on
// whose triangle it lies.
fn shown_files(
    alloc: Global,
    scene: &[Tri],
    mesh: &SolidMesh,
    grid: &Grid,
) -> Result<Vec<usize>, PlaceFault>
    requires few { length scene.now ≤ most_triangles }
    requires scene { All IsValidTri scene.now }
    requires step { IsStep grid.now.step }
    requires proper { All (IsProper mesh.now.planes.items mesh.now.corners.items) mesh.now.triangles.items }
    requires planes { All IsValidPlane mesh.now.planes.items }
    ensures files { IfOk result (AreShownFiles scene.now grid.now mesh.now) }
    ensures fault { IfErr result (IsFloatFault grid.now.step grid.now.offset mesh.now.corners.items) }
{
    let points = float_points(alloc, &mesh.corners, &grid.step, &grid.offset)?;
    let sources = sources_of(alloc, scene, &mesh.corners, &mesh.planes, &mesh.triangles)?;
    let files = files_of(alloc, scene, &sources)?;
    let shown = numbers_over(alloc, &points, &mesh.triangles, &files)?;
    Ok(shown)
}

// The same, if they are asked for.
pub(crate) fn shown_files_if(
    alloc: Global,
    shows: bool,
    scene: &[Tri],
    mesh: &SolidMesh,
    grid: &Grid,
) -> Result<Option<Vec<usize>>, WritingFault>
    requires few { length scene.now ≤ most_triangles }
    requires scene { All IsValidTri scene.now }
    requires step { IsStep grid.now.step }
    requires proper { All (IsProper mesh.now.planes.items mesh.now.corners.items) mesh.now.triangles.items }
    requires planes { All IsValidPlane mesh.now.planes.items }
    ensures files { IfOk result (IsThereIf shows (AreShownFiles scene.now grid.now mesh.now)) }
    ensures fault { IfErr result (λ fault. (format : MeshFormat) → IsWritingFault format grid.now mesh.now fault) }
{
    if !shows {
        return Ok(None);
    }
    let files = shown_files(alloc, scene, mesh, grid)?;
    Ok(Some(files))
}
