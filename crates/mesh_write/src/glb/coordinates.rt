// The texts of coordinates.
ghost use Rattle.std.specs.Prelude.{IfOk};
ghost use Rattle.mesh_write.specs.Glb.Texts.{IsFloatText, IsVectorText};

use crate::glb::bounds::FloatCoordinates;
use ryu::Buffer;
use std::alloc::{AllocError, Global};
use std::num::f32_to_f64_with_nan;

// The text of a number.
fn float_text(alloc: Global, number: f32) -> Result<Vec<u8>, AllocError>
    ensures { IfOk result (λ text. IsFloatText number text.items) }
{
    let mut buffer = Buffer::new();
    Vec::from_slice(alloc, buffer.format(f32_to_f64_with_nan(number)).as_bytes())
}

/// The texts of three numbers with commas between them, in brackets.
pub fn vector_text(alloc: Global, numbers: &FloatCoordinates) -> Result<Vec<u8>, AllocError>
    ensures { IfOk result (λ text. IsVectorText numbers.now text.items) }
{
    let x = float_text(alloc, numbers.x)?;
    let y = float_text(alloc, numbers.y)?;
    let z = float_text(alloc, numbers.z)?;
    let mut text = Vec::from_slice(alloc, b"[")?;
    text.extend_from_slice(&x)?;
    text.extend_from_slice(b",")?;
    text.extend_from_slice(&y)?;
    text.extend_from_slice(b",")?;
    text.extend_from_slice(&z)?;
    text.extend_from_slice(b"]")?;
    Ok(text)
}
