// The OBJ, PLY or OFF of a mesh.
ghost use Rattle.std.specs.Prelude.{◌≤◌, List, All, IfOk, IfErr, IfSome};
ghost use Rattle.mesh_certificate.specs.Certificate.Certificate.{IsProper};
ghost use Rattle.ember_model.specs.Valid.{IsValidPlane};
ghost use Rattle.mesh_grid.specs.Snap.Steps.{IsStep};
ghost use Rattle.mesh_write.specs.declared.vertices.point.DecimalTriangle.{DecimalTriangle};
ghost use Rattle.mesh_write.specs.Vertices.Vertices.{IsMeshOf};
ghost use Rattle.mesh_boolean.specs.declared.wanted.MeshFormat.TheVariants.{Text};
ghost use Rattle.mesh_boolean.specs.MeshTexts.{IsMeshTextOver};
ghost use Rattle.mesh_boolean.specs.Outputs.{AreShownIf, IsText};
ghost use Rattle.mesh_boolean.specs.WritingFaults.{IsWritingFault};

use crate::effect::decimal_effect;
use crate::rounding::{decimals, shown_if};
use crate::split::split_decimals;
use crate::writing::OutputMesh;
use crate::writing_fault::WritingFault;
use ember_model::Plane;
use mesh_grid::Grid;
use mesh_solid::SolidMesh;
use mesh_write::{TextFormat, mesh_text};
use mesh_written::{DecimalMesh, shared_edges_by_index, written_places};
use std::alloc::{AllocError, Global};

// A text, the number of its triangles, and whether each of its edges has two.
#[derive(Drop)]
struct MeshText {
    bytes: Vec<u8>,
    triangles: u64,
    is_manifold: bool,
}

// The text of a rounded mesh: see [`split_decimals`].
fn split_text(
    alloc: Global,
    format: TextFormat,
    planes: &[Plane],
    written: &DecimalMesh,
    places: u32,
) -> Result<MeshText, AllocError>
    requires { places ≤ 17 }
    ensures { (ts : List DecimalTriangle) → IsMeshOf ts written.now.mesh →
        IfOk result (IsMeshTextOver format places ts) }
{
    let split = split_decimals(alloc, planes, written)?;
    let bytes = mesh_text(alloc, format, &split.points, &split.triangles, places)?;
    Ok(MeshText {
        bytes,
        triangles: split.triangles.len() as u64,
        is_manifold: split.is_manifold,
    })
}

// The text of a mesh on a grid. Of the mesh only the planes are kept while its bytes are made.
pub(crate) fn text_file(
    alloc: Global,
    mesh: SolidMesh,
    grid: &Grid,
    format: TextFormat,
    digits: Option<u32>,
    shows: bool,
) -> Result<OutputMesh, WritingFault>
    requires step { IsStep grid.now.step }
    requires proper { All (IsProper mesh.planes.items mesh.corners.items) mesh.triangles.items }
    requires valid { All IsValidPlane mesh.planes.items }
    requires digits { IfSome digits (λ n. n ≤ 17) }
    ensures text { IfOk result (IsText format digits grid.now mesh) }
    ensures shown { IfOk result (λ file. AreShownIf shows grid.now mesh file.shown) }
    ensures fault { IfErr result (IsWritingFault (Text format digits) grid.now mesh) }
{
    let written = decimals(alloc, &mesh, grid, digits)?;
    let effect = decimal_effect(alloc, &mesh, &written, grid, digits)?;
    let shown = shown_if(alloc, shows, &mesh, grid)?;
    let SolidMesh {
        planes,
        corners,
        triangles,
        faces,
    } = mesh;
    let plane_count = planes.len() as u64;
    let triangle_count = triangles.len() as u64;
    drop(corners);
    drop(triangles);
    let indexed = written.mesh.triangles();
    let vanished = triangle_count - indexed.len() as u64;
    let shared = shared_edges_by_index(alloc, indexed)?;
    let places = written_places(digits, &grid.step);
    let text = split_text(alloc, format, &planes, &written, places)?;
    Ok(OutputMesh {
        bytes: text.bytes,
        faces,
        planes: plane_count,
        triangles: triangle_count,
        vanished,
        written: text.triangles,
        shared,
        is_manifold: text.is_manifold,
        effect,
        shown,
    })
}
