// Why a solid or a document gets no mesh.
ghost use Rattle.std.specs.Prelude.{◌≡◌};
ghost use Rattle.mesh_solid.specs.declared.mesh.fault.DocumentFault.TheVariants as document;
ghost use Rattle.mesh_solid.specs.declared.mesh.fault.SolidFault.TheVariants as solid;
ghost use Rattle.mesh_solid.specs.Mesh.Faults.{of_reading_fault, of_table_fault, of_tables_fault, of_triangles_fault};

use crate::tables::TableFault;
use ember_reread::RereadFault;
use mesh_triangles::TrianglesFault;
use std::alloc::{AllocError, AllocFailed};
use thiserror::Error;

/// Why a solid gets no mesh.
#[derive(Clone, Copy, Debug, PartialEq, Eq, Error)]
pub enum SolidFault {
    /// The faces of the solid have no tables of planes, lines and corners. Never `TableFault::OutOfMemory`.
    #[error(transparent)]
    NoTables(TableFault),
    /// No certified triangles were found for the faces. Never `TrianglesFault::OutOfMemory`.
    #[error(transparent)]
    NotCut(TrianglesFault),
    #[error("out of memory")]
    OutOfMemory,
}

impl From<AllocError> for SolidFault {
    ghost from_gives = { λ _ e. e ≡ solid.OutOfMemory };

    fn from(_e: AllocError) -> SolidFault {
        SolidFault::OutOfMemory
    }
}

impl From<TableFault> for SolidFault {
    ghost from_gives = { λ fault e. e ≡ of_table_fault fault };

    fn from(fault: TableFault) -> SolidFault {
        match fault {
            TableFault::OutOfMemory => SolidFault::OutOfMemory,
            fault => SolidFault::NoTables(fault),
        }
    }
}

impl From<TrianglesFault> for SolidFault {
    ghost from_gives = { λ fault e. e ≡ of_triangles_fault fault };

    fn from(fault: TrianglesFault) -> SolidFault {
        match fault {
            TrianglesFault::OutOfMemory => SolidFault::OutOfMemory,
            fault => SolidFault::NotCut(fault),
        }
    }
}

/// Why the bytes of a document give no mesh. Faces have numbers from 0.
#[derive(Clone, Copy, Debug, PartialEq, Eq, Error)]
pub enum DocumentFault {
    /// The bytes aren't a face file.
    #[error("not a face file")]
    NotADocument,
    /// A corner of the face with this number isn't on its plane.
    #[error("face {0}: a corner off its plane")]
    OffPlane(usize),
    /// An edge of the face with this number starts or ends off its own plane.
    #[error("face {0}: a corner off its edge")]
    OffEdge(usize),
    /// The edges of the face with this number don't lead once around a convex polygon,
    /// counter-clockwise as seen from its front.
    #[error("face {0}: its edges don't lead around it")]
    NotRound(usize),
    /// The faces have no tables of planes, lines and corners. Never `TableFault::OutOfMemory`.
    #[error(transparent)]
    NoTables(TableFault),
    /// Somewhere on a line more edges run one way than the other.
    #[error("the document isn't closed along a line")]
    NotClosed,
    /// Two faces of one plane aren't apart.
    #[error("faces of one plane overlap")]
    Overlap,
    /// No certified triangles were found for the faces, which are closed along lines and don't
    /// overlap. Never `TrianglesFault::OutOfMemory`.
    #[error(transparent)]
    NotCut(TrianglesFault),
    #[error("out of memory")]
    OutOfMemory,
}

impl From<AllocError> for DocumentFault {
    ghost from_gives = { λ _ e. e ≡ document.OutOfMemory };

    fn from(_e: AllocError) -> DocumentFault {
        DocumentFault::OutOfMemory
    }
}

impl<T: Drop> From<AllocFailed<T>> for DocumentFault {
    ghost from_gives = { λ _ e. e ≡ document.OutOfMemory };

    fn from(_e: AllocFailed<T>) -> DocumentFault {
        DocumentFault::OutOfMemory
    }
}

impl From<RereadFault> for DocumentFault {
    ghost from_gives = { λ fault e. e ≡ of_reading_fault fault };

    fn from(fault: RereadFault) -> DocumentFault {
        match fault {
            RereadFault::Form => DocumentFault::NotADocument,
            RereadFault::OutOfMemory => DocumentFault::OutOfMemory,
        }
    }
}

impl From<TableFault> for DocumentFault {
    ghost from_gives = { λ fault e. e ≡ of_tables_fault fault };

    fn from(fault: TableFault) -> DocumentFault {
        match fault {
            TableFault::OutOfMemory => DocumentFault::OutOfMemory,
            fault => DocumentFault::NoTables(fault),
        }
    }
}
