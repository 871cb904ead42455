// Surfaces that own the digits of their numbers.
ghost use Rattle.std.specs.Prelude.{◌≡◌, map, IfOk};
ghost use Rattle.mesh_read.specs.Surface.Surfaces.{point_of, content_of};
ghost use Rattle.mesh_place.specs.Images.{transformed_point, transformed_points, transformed_content};
ghost use Rattle.mesh_place.specs.declared.surface.transformed.TransformFault.TheVariants as transform;

use crate::exact::decimals::ExactDecimal;
use mesh_read::{Facet, Surface, Vertex};
use std::alloc::{AllocError, AllocFailed, Global};
use thiserror::Error;

/// A vertex that owns its digits.
#[derive(Drop)]
pub struct TransformedPoint {
    pub x: ExactDecimal,
    pub y: ExactDecimal,
    pub z: ExactDecimal,
}

/// A surface that owns the digits of its numbers: the image of one under an affine map.
#[derive(Drop)]
pub struct TransformedSurface {
    pub points: Vec<TransformedPoint>,
    pub facets: Vec<Facet>,
}

/// Why a surface has no image.
#[derive(Clone, Copy, Debug, PartialEq, Eq, Error)]
pub enum TransformFault {
    /// Out of memory.
    #[error("out of memory")]
    OutOfMemory,
    /// This vertex, counted from 0, is the first with a number of more than 4,999 digits, together
    /// with the size of its exponent.
    #[error("vertex {0}: a number is too long")]
    TooLong(usize),
}

impl From<AllocError> for TransformFault {
    ghost from_gives = { λ _ e. e ≡ transform.OutOfMemory };

    fn from(_error: AllocError) -> TransformFault {
        TransformFault::OutOfMemory
    }
}

impl<T: Drop> From<AllocFailed<T>> for TransformFault {
    ghost from_gives = { λ _ e. e ≡ transform.OutOfMemory };

    fn from(_error: AllocFailed<T>) -> TransformFault {
        TransformFault::OutOfMemory
    }
}

impl TransformedPoint {
    // The vertex, which borrows the digits.
    fn vertex(&self) -> Vertex<'_>
        ensures { point_of result ≡ transformed_point self.now }
    {
        Vertex {
            x: self.x.number(),
            y: self.y.number(),
            z: self.z.number(),
        }
    }
}

// The vertices, which borrow the digits.
fn vertices_of<'a>(
    alloc: Global,
    points: &'a [TransformedPoint],
) -> Result<Vec<Vertex<'a>>, AllocError>
    ensures { IfOk result (λ vertices. map point_of vertices.items ≡ transformed_points points.now) }
{
    let mut vertices = Vec::new(alloc);
    for point in points {
        vertices.push(point.vertex())?;
    }
    Ok(vertices)
}

impl TransformedSurface {
    /// The surface, whose numbers borrow the digits.
    pub fn surface(&self, alloc: Global) -> Result<Surface<'_>, AllocError>
        ensures { IfOk result (λ s. content_of s ≡ transformed_content self.now) }
    {
        let vertices = vertices_of(alloc, self.points.as_slice())?;
        let facets = Vec::from_slice(alloc, self.facets.as_slice())?;
        Ok(Surface { vertices, facets })
    }
}
