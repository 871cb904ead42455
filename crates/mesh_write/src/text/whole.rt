// The text of a mesh.
ghost use Rattle.std.specs.Prelude.{◌≡◌, ◌≤◌, IfOk};
ghost use Rattle.mesh_write.specs.Text.Texts.{text_of};

use crate::text::format::TextFormat;
use crate::text::obj::obj_text;
use crate::text::off::off_text;
use crate::text::ply::ply_text;
use crate::vertices::{DecimalPoint, IndexedTriangle};
use std::alloc::{AllocError, Global};

/// The file with these vertices and triangles, in their order. Coordinates are units of the last of
/// so many decimal places, of which there are at most 17. They have no zeros at the end, no bare
/// point and no sign of 0. The one error is out-of-memory.
pub fn mesh_text(
    alloc: Global,
    format: TextFormat,
    vertices: &[DecimalPoint],
    triangles: &[IndexedTriangle],
    places: u32,
) -> Result<Vec<u8>, AllocError>
    requires { places ≤ 17 }
    ensures { IfOk result (λ text. text.items ≡ text_of format places vertices.now triangles.now) }
{
    match format {
        TextFormat::Obj => obj_text(alloc, vertices, triangles, places),
        TextFormat::Ply => ply_text(alloc, vertices, triangles, places),
        TextFormat::Off => off_text(alloc, vertices, triangles, places),
    }
}
