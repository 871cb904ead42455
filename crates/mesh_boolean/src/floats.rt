// The STL or the GLB of a mesh.
ghost use Rattle.std.specs.Prelude.{◌≡◌, ◌<◌, [], All, IfOk, IfErr, length, true, false};
ghost use Rattle.mesh_certificate.specs.Certificate.Certificate.{IsProper};
ghost use Rattle.ember_model.specs.Valid.{IsValidPlane};
ghost use Rattle.mesh_grid.specs.Snap.Steps.{IsStep};
ghost use Rattle.mesh_boolean.specs.declared.wanted.MeshFormat.TheVariants.{Floats};
ghost use Rattle.mesh_boolean.specs.Outputs.{AreShownIf, IsFloatFile, IsOfFloats};
ghost use Rattle.mesh_boolean.specs.WritingFaults.{IsFloatFileFault, IsWritingFault};

use crate::rounding::{RoundedMesh, rounded_with_effect};
use crate::wanted::FloatFormat;
use crate::writing::OutputMesh;
use crate::writing_fault::WritingFault;
use mesh_grid::Grid;
use mesh_solid::SolidMesh;
use mesh_write::{FloatTriangle, glb_bytes, stl_bytes};
use mesh_written::shared_edges;
use std::alloc::Global;

// The file of the triangles.
fn float_bytes(
    alloc: Global,
    format: FloatFormat,
    triangles: &[FloatTriangle],
) -> Result<Vec<u8>, WritingFault>
    ensures file { IfOk result (λ bytes. IsFloatFile format triangles.now bytes.items) }
    ensures fault { IfErr result (IsFloatFileFault format triangles.now) }
{
    match format {
        FloatFormat::Stl => match stl_bytes(alloc, triangles) {
            Ok(bytes) => Ok(bytes),
            Err(fault) => Err(WritingFault::from(fault)),
        },
        FloatFormat::Glb => match glb_bytes(alloc, triangles) {
            Ok(bytes) => Ok(bytes),
            Err(fault) => Err(WritingFault::from(fault)),
        },
    }
}

// Whether a mesh has triangles, but none of them is left.
fn is_rounded_away(mesh: &SolidMesh, written: &[FloatTriangle]) -> bool
    ensures lost { result ≡ true → (0 < length mesh.now.triangles.items) × (written.now ≡ []) }
    ensures kept { result ≡ false → length written.now ≡ 0 → length mesh.now.triangles.items ≡ 0 }
{
    written.is_empty() && !mesh.triangles.is_empty()
}

// The STL or the GLB of a mesh on a grid. The mesh isn't kept while its bytes are made.
pub(crate) fn float_file(
    alloc: Global,
    mesh: SolidMesh,
    grid: &Grid,
    format: FloatFormat,
    shows: bool,
) -> Result<OutputMesh, WritingFault>
    requires step { IsStep grid.now.step }
    requires proper { All (IsProper mesh.planes.items mesh.corners.items) mesh.triangles.items }
    requires valid { All IsValidPlane mesh.planes.items }
    ensures floats { IfOk result (IsOfFloats format grid.now mesh) }
    ensures shown { IfOk result (λ file. AreShownIf shows grid.now mesh file.shown) }
    ensures fault { IfErr result (IsWritingFault (Floats format) grid.now mesh) }
{
    let RoundedMesh {
        triangles: written,
        effect,
    } = rounded_with_effect(alloc, &mesh, grid)?;
    if is_rounded_away(&mesh, &written) {
        return Err(WritingFault::TooFar);
    }
    let faces = mesh.faces;
    let planes = mesh.planes.len() as u64;
    let triangles = mesh.triangles.len() as u64;
    let count = written.len() as u64;
    let vanished = triangles - count;
    drop(mesh);
    let shared = shared_edges(alloc, &written)?;
    let bytes = float_bytes(alloc, format, &written)?;
    Ok(OutputMesh {
        bytes,
        faces,
        planes,
        triangles,
        vanished,
        written: count,
        shared,
        is_manifold: false,
        effect,
        shown: shows.then_some(written),
    })
}
