// Why mesh files give no solid.
ghost use Rattle.std.specs.Prelude.{◌≡◌};
ghost use Rattle.mesh_boolean.specs.declared.fault.BooleanFault.TheVariants.{OutOfMemory};
ghost use Rattle.mesh_boolean.specs.Faults.{of_scene_fault, of_solid_fault, of_writing_fault};

use crate::writing_fault::WritingFault;
use mesh_file::FileFault;
use mesh_placing::ImageFault;
use mesh_scene::SceneFault;
use mesh_solid::SolidFault;
use std::alloc::{AllocError, AllocFailed};
use thiserror::Error;

/// Why mesh files give no solid. No fault in it is out-of-memory, which is a fault of its own.
#[derive(Clone, Copy, Debug, PartialEq, Eq, Error)]
pub enum BooleanFault<'a> {
    /// The file with this index, from 0, is the first that isn't read, and why.
    #[error("file {0}: {1}")]
    File(u32, FileFault<'a>),
    /// The surface of the file with this index, from 0, is the first that has no image by its placing,
    /// or, if all have one, the first whose image is no mesh.
    #[error("file {0}: no mesh where it is placed")]
    Image(u32, ImageFault),
    /// The surfaces of the files are no scene. Its fault has the index of the file.
    #[error(transparent)]
    Scene(SceneFault),
    /// The solid has no triangles that are certified.
    #[error(transparent)]
    Solid(SolidFault),
    /// A corner of the solid is too far from zero along an axis, in the user's unit: 2^128 - 2^103
    /// or more, so that no float is nearest to it, or, for a decimal, 10^21 or more. Or floats are
    /// so far apart there that each of its triangles vanishes.
    #[error("a corner is too far from zero")]
    TooFar,
    /// The STL would have 2^32 triangles or more, or the GLB 2^32 bytes or more.
    #[error("too many triangles for the format")]
    TooManyTriangles,
    #[error("out of memory")]
    OutOfMemory,
}

impl<'a> From<AllocError> for BooleanFault<'a> {
    ghost from_gives = { λ _ fault. fault ≡ OutOfMemory };

    fn from(_error: AllocError) -> BooleanFault<'a> {
        BooleanFault::OutOfMemory
    }
}

impl<'a, T: Drop> From<AllocFailed<T>> for BooleanFault<'a> {
    ghost from_gives = { λ _ fault. fault ≡ OutOfMemory };

    fn from(_error: AllocFailed<T>) -> BooleanFault<'a> {
        BooleanFault::OutOfMemory
    }
}

impl<'a> From<SceneFault> for BooleanFault<'a> {
    ghost from_gives = { λ cause fault. fault ≡ of_scene_fault cause };

    fn from(cause: SceneFault) -> BooleanFault<'a> {
        match cause {
            SceneFault::OutOfMemory => BooleanFault::OutOfMemory,
            cause => BooleanFault::Scene(cause),
        }
    }
}

impl<'a> From<SolidFault> for BooleanFault<'a> {
    ghost from_gives = { λ cause fault. fault ≡ of_solid_fault cause };

    fn from(cause: SolidFault) -> BooleanFault<'a> {
        match cause {
            SolidFault::OutOfMemory => BooleanFault::OutOfMemory,
            cause => BooleanFault::Solid(cause),
        }
    }
}

impl<'a> From<WritingFault> for BooleanFault<'a> {
    ghost from_gives = { λ cause fault. fault ≡ of_writing_fault cause };

    fn from(cause: WritingFault) -> BooleanFault<'a> {
        match cause {
            WritingFault::TooFar => BooleanFault::TooFar,
            WritingFault::TooManyTriangles => BooleanFault::TooManyTriangles,
            WritingFault::OutOfMemory => BooleanFault::OutOfMemory,
        }
    }
}
