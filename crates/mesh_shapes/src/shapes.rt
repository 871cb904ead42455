// The texts of shapes.
ghost use Rattle.std.specs.Prelude.{◌≡◌, List, ℕ, Ok, IfOk, IfErr, MatchOption};
ghost use Rattle.mesh_read.specs.Off.ReadOff.{read_off_of};
ghost use Rattle.mesh_read.specs.Surface.Surfaces.{Content};
ghost use Rattle.mesh_place.specs.Images.{transformed_content};
ghost use Rattle.mesh_placing.specs.declared.shapes.Shape.{Shape};
ghost use Rattle.mesh_shapes.specs.Shapes.{IsDrawn, IsDrawFault, IsShapeText, HasNoText, IsShape};

use crate::texts::surface_text;
use mesh_place::{ShapeFault, TransformedSurface, box_between, cylinder};
use mesh_placing::Shape;
use std::alloc::{AllocError, Global};

// The surface of a shape.
fn drawn(alloc: Global, shape: &Shape) -> Result<TransformedSurface, ShapeFault>
    ensures ok { IfOk result (λ s. IsDrawn shape.now (transformed_content s)) }
    ensures fault { IfErr result (IsDrawFault shape.now) }
{
    match shape {
        Shape::Box(from, to) => box_between(alloc, from, to),
        Shape::Cylinder(c) => cylinder(alloc, &c.centre, &c.radius, &c.height, c.sides),
    }
}

/// The text of a shape as an OFF file, with all digits of its coordinates. None if the shape has no
/// surface, or a coordinate of 10^15 or more in size, which readers refuse. The one error is
/// out-of-memory.
pub fn shape_text(alloc: Global, shape: &Shape) -> Result<Option<Vec<u8>>, AllocError>
    ensures { IfOk result (λ text. MatchOption text (HasNoText shape.now)
        (λ text. IsShapeText shape.now text.items)) }
{
    match drawn(alloc, shape) {
        Ok(surface) => {
            let text = surface_text(alloc, &surface)?;
            Ok(text)
        }
        Err(ShapeFault::OutOfMemory) => Err(AllocError),
        Err(_) => Ok(None),
    }
}

/// What the reader of OFF files finds in the text of a shape is the shape.
pub fn shape_texts_are_read()
    ensures { (shape : Shape) (text : List ℕ) → IsShapeText shape text →
        (read : Content) × (read_off_of text ≡ Ok read) × IsShape shape read }
{}
