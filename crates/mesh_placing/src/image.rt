// The image of a surface by a placing.
ghost use Rattle.std.specs.Prelude.{◌≡◌, IfOk, IfErr};
ghost use Rattle.mesh_read.specs.Surface.Surfaces.{content_of};
ghost use Rattle.mesh_place.specs.Images.{turned, facets_under, transformed_content};
ghost use Rattle.mesh_placing.specs.declared.image.ImageFault.TheVariants as image;
ghost use Rattle.mesh_placing.specs.Images.{IsPlacedBy, IsImageFault, of_steps_fault, of_transform_fault};

use crate::files::Placing;
use mesh_place::{
    StepsFault, TransformFault, TransformedSurface, facets_under, map_of_steps, transform_surface,
};
use mesh_read::{Flaw, Surface};
use std::alloc::{AllocError, Global};
use thiserror::Error;

/// Why a surface has no image by a placing, or its image is no mesh.
#[derive(Clone, Copy, Debug, PartialEq, Eq)]
pub enum ImageFault {
    /// Out of memory.
    OutOfMemory,
    /// The steps have no map: see [`map_of_steps`]. This is never out-of-memory.
    Steps(StepsFault),
    /// This vertex, counted from 0, is the first with a number of more than 4,999 digits, together
    /// with the size of its exponent.
    LongVertex(usize),
    /// The image is no mesh.
    Flaw(Flaw),
}

impl From<AllocError> for ImageFault {
    ghost from_gives = { λ _ fault. fault ≡ image.OutOfMemory };

    fn from(_error: AllocError) -> ImageFault {
        ImageFault::OutOfMemory
    }
}

impl From<StepsFault> for ImageFault {
    ghost from_gives = { λ cause fault. fault ≡ of_steps_fault cause };

    fn from(cause: StepsFault) -> ImageFault {
        match cause {
            StepsFault::OutOfMemory => ImageFault::OutOfMemory,
            cause => ImageFault::Steps(cause),
        }
    }
}

impl From<TransformFault> for ImageFault {
    ghost from_gives = { λ cause fault. fault ≡ of_transform_fault cause };

    fn from(cause: TransformFault) -> ImageFault {
        match cause {
            TransformFault::OutOfMemory => ImageFault::OutOfMemory,
            TransformFault::TooLong(vertex) => ImageFault::LongVertex(vertex),
        }
    }
}

/// The image of a surface by a placing, exactly: of each vertex, in the same order, by the map of the
/// steps, and the same triangles. Two corners of each are exchanged if either the map mirrors or the
/// surface is to be turned inside out.
pub fn image_by(
    alloc: Global,
    placing: &Placing,
    surface: &Surface,
) -> Result<TransformedSurface, ImageFault>
    ensures image { IfOk result (λ s. IsPlacedBy placing.now (content_of surface.now) (transformed_content s)) }
    ensures fault { IfErr result (IsImageFault placing.now surface.now) }
{
    let map = map_of_steps(alloc, &placing.steps)?;
    let image = transform_surface(alloc, &map, surface)?;
    let TransformedSurface { points, facets } = image;
    let facets = facets_under(alloc, placing.is_turned, &facets)?;
    Ok(TransformedSurface { points, facets })
}
