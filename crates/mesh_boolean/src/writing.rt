// The file of a mesh.
ghost use Rattle.std.specs.Prelude.{All, IfOk, IfErr};
ghost use Rattle.mesh_certificate.specs.Certificate.Certificate.{IsProper};
ghost use Rattle.ember_model.specs.Valid.{IsValidPlane};
ghost use Rattle.mesh_grid.specs.Snap.Steps.{IsStep};
ghost use Rattle.mesh_boolean.specs.Outputs.{AreShownIf, HasFewDigits, IsWritten};
ghost use Rattle.mesh_boolean.specs.WritingFaults.{IsWritingFault};

use crate::effect::RoundingEffect;
use crate::floats::float_file;
use crate::text::text_file;
use crate::wanted::MeshFormat;
use crate::writing_fault::WritingFault;
use mesh_grid::Grid;
use mesh_solid::SolidMesh;
use mesh_write::FloatTriangle;
use std::alloc::Global;

/// A mesh as a file, with its numbers.
#[derive(Drop)]
pub struct OutputMesh {
    /// The bytes of the file: the triangles of the exact mesh in the user's unit, rounded.
    pub bytes: Vec<u8>,
    /// The number of the faces that the triangles of the exact mesh cut up.
    pub faces: u64,
    /// The number of planes of the exact mesh.
    pub planes: u64,
    /// The number of triangles of the exact mesh.
    pub triangles: u64,
    /// How many of these aren't in the file: two of their corners became equal when rounded.
    pub vanished: u64,
    /// The number of triangles of the file. Those of a text may have been cut.
    pub written: u64,
    /// How many edges belong to more than two of the triangles that didn't vanish, by the rounded
    /// places of their ends.
    pub shared: u64,
    /// Whether each edge of the file has two triangles. An STL has no vertices, and a GLB has one
    /// for each corner of a triangle, so there it is false.
    pub is_manifold: bool,
    /// What rounding did to the exact mesh.
    pub effect: RoundingEffect,
    /// The triangles as an STL has them, if they were asked for. A page shows them.
    pub shown: Option<Vec<FloatTriangle>>,
}

// The file of a mesh on a grid. The mesh isn't kept while its bytes are made.
pub(crate) fn written_of(
    alloc: Global,
    mesh: SolidMesh,
    grid: &Grid,
    format: MeshFormat,
    shows: bool,
) -> Result<OutputMesh, WritingFault>
    requires step { IsStep grid.now.step }
    requires proper { All (IsProper mesh.planes.items mesh.corners.items) mesh.triangles.items }
    requires valid { All IsValidPlane mesh.planes.items }
    requires digits { HasFewDigits format }
    ensures written { IfOk result (IsWritten format grid.now mesh) }
    ensures shown { IfOk result (λ file. AreShownIf shows grid.now mesh file.shown) }
    ensures fault { IfErr result (IsWritingFault format grid.now mesh) }
{
    match format {
        MeshFormat::Floats(floats) => float_file(alloc, mesh, grid, floats, shows),
        MeshFormat::Text(text, digits) => text_file(alloc, mesh, grid, text, digits, shows),
    }
}
