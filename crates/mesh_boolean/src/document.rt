// The file of a document.
ghost use Rattle.std.specs.Prelude.{◌≡◌, IfOk, IfErr};
ghost use Rattle.mesh_grid.specs.Snap.Steps.{IsStep};
ghost use Rattle.mesh_boolean.specs.declared.document.DocumentFileFault.TheVariants.{OutOfMemory};
ghost use Rattle.mesh_boolean.specs.DocumentFiles.{IsDocumentFileFault, IsDocumentOutput, of_document_fault, of_unwritten_fault};
ghost use Rattle.mesh_boolean.specs.Outputs.{HasFewDigits};
ghost use Rattle.mesh_triangles.specs.PlaneQueries.{IsPlaneAnswer, IsPlaneQuery};

use crate::wanted::MeshFormat;
use crate::writing::{OutputMesh, written_of};
use crate::writing_fault::WritingFault;
use mesh_grid::Grid;
use mesh_solid::{DocumentFault, document_mesh};
use mesh_triangles::{PlaneAnswer, PlaneQuery, TrianglesFault, answer_planes_alone};
use std::alloc::Global;
use thiserror::Error;

/// Why a document gives no mesh file. No fault in it is out-of-memory, which is a fault of its own.
#[derive(Clone, Copy, Debug, PartialEq, Eq, Error)]
pub enum DocumentFileFault {
    /// The document has no mesh.
    #[error(transparent)]
    Document(DocumentFault),
    /// A corner is too far from zero along an axis, in the user's unit: 2^128 - 2^103 or more, so
    /// that no float is nearest to it, or, for a decimal, 10^21 or more. Or floats are so far apart
    /// there that each triangle of the mesh vanishes.
    #[error("a corner is too far from zero")]
    TooFar,
    /// The STL would have 2^32 triangles or more, or the GLB 2^32 bytes or more.
    #[error("too many triangles for the format")]
    TooManyTriangles,
    #[error("out of memory")]
    OutOfMemory,
}

impl From<DocumentFault> for DocumentFileFault {
    ghost from_gives = { λ cause fault. fault ≡ of_document_fault cause };

    fn from(cause: DocumentFault) -> DocumentFileFault {
        match cause {
            DocumentFault::OutOfMemory => DocumentFileFault::OutOfMemory,
            cause => DocumentFileFault::Document(cause),
        }
    }
}

impl From<WritingFault> for DocumentFileFault {
    ghost from_gives = { λ cause fault. fault ≡ of_unwritten_fault cause };

    fn from(cause: WritingFault) -> DocumentFileFault {
        match cause {
            WritingFault::TooFar => DocumentFileFault::TooFar,
            WritingFault::TooManyTriangles => DocumentFileFault::TooManyTriangles,
            WritingFault::OutOfMemory => DocumentFileFault::OutOfMemory,
        }
    }
}

/// The mesh of a document on this grid, as a file of this format. The document may come from
/// anywhere. The triangles are exact on the grid, and each coordinate of their corners is rounded
/// once. If `shows`, the triangles are there as a page shows them, too. There are at most 17 decimal
/// places. Of several faults the first of these is reported:
///
/// 1. The document has no mesh: see [`document_mesh`](mesh_solid::document_mesh).
/// 2. A corner of the mesh that is too far out for a float, or for a decimal.
/// 3. After rounding, too many triangles: 2^32 or more for an STL, 2^32 bytes or more of a GLB.
pub fn document_file(
    alloc: Global,
    bytes: &[u8],
    grid: Grid,
    format: MeshFormat,
    shows: bool,
) -> Result<OutputMesh, DocumentFileFault>
    requires step { IsStep grid.step }
    requires digits { HasFewDigits format }
    ensures output { IfOk result (IsDocumentOutput bytes.now grid format shows) }
    ensures fault { IfErr result (IsDocumentFileFault bytes.now grid format) }
{
    let mesh = document_mesh(
        alloc,
        bytes,
        &|query: &PlaneQuery| -> Result<PlaneAnswer, TrianglesFault>
            requires { IsPlaneQuery query.now }
            ensures { IfOk result (IsPlaneAnswer query.entry.now) }
        { answer_planes_alone(alloc, query) },
    )?;
    let written = written_of(alloc, mesh, &grid, format, shows)?;
    Ok(written)
}
