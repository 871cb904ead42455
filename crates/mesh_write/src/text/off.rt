// OFF.
ghost use Rattle.std.specs.Prelude.{◌≡◌, ◌≤◌, ◌++◌, IfOk, OnOk};
ghost use Rattle.mesh_write.specs.Text.Texts.{off_header, off_text};

use crate::text::lines::{put_listed_faces, put_number, put_points};
use crate::vertices::{DecimalPoint, IndexedTriangle};
use std::alloc::{AllocError, Global};

// Appends the keyword and the numbers of vertices, faces and edges. Readers pass over the last one,
// which is left 0.
#[tactic(auto, unfolding(crate::specs::Text::Texts::off_header))]
fn put_header(vertices: u128, faces: u128, out: &mut Vec<u8>) -> Result<(), AllocError>
    ensures { OnOk result (out.new.items ≡ out.old.items ++ off_header vertices faces) }
{
    out.extend_from_slice(b"OFF\n")?;
    put_number(vertices, out)?;
    out.extend_from_slice(b" ")?;
    put_number(faces, out)?;
    out.extend_from_slice(b" 0\n")
}

/// The OFF with these vertices and triangles.
pub fn off_text(
    alloc: Global,
    vertices: &[DecimalPoint],
    triangles: &[IndexedTriangle],
    places: u32,
) -> Result<Vec<u8>, AllocError>
    requires { places ≤ 17 }
    ensures { IfOk result (λ text. text.items ≡ off_text places vertices.now triangles.now) }
{
    let mut text = Vec::new(alloc);
    put_header(vertices.len() as u128, triangles.len() as u128, &mut text)?;
    put_points(vertices, places, &mut text)?;
    put_listed_faces(triangles, &mut text)?;
    Ok(text)
}
