// PLY.
ghost use Rattle.std.specs.Prelude.{◌≡◌, ◌≤◌, ◌++◌, IfOk, OnOk};
ghost use Rattle.mesh_write.specs.Text.Texts.{ply_header, ply_text};

use crate::text::lines::{put_listed_faces, put_number, put_points};
use crate::vertices::{DecimalPoint, IndexedTriangle};
use std::alloc::{AllocError, Global};

const VERTICES: &[u8] = b"ply\nformat ascii 1.0\n\
    comment ember-mesh: rounded from an exact result\nelement vertex ";

const FACES: &[u8] = b"\nproperty double x\nproperty double y\nproperty double z\nelement face ";

const END: &[u8] = b"\nproperty list uchar int vertex_indices\nend_header\n";

#[tactic(auto, unfolding(crate::specs::Text::Texts::ply_header))]
fn put_header(vertices: u128, faces: u128, out: &mut Vec<u8>) -> Result<(), AllocError>
    ensures { OnOk result (out.new.items ≡ out.old.items ++ ply_header vertices faces) }
{
    out.extend_from_slice(VERTICES)?;
    put_number(vertices, out)?;
    out.extend_from_slice(FACES)?;
    put_number(faces, out)?;
    out.extend_from_slice(END)
}

/// The ASCII PLY with these vertices and triangles.
pub fn ply_text(
    alloc: Global,
    vertices: &[DecimalPoint],
    triangles: &[IndexedTriangle],
    places: u32,
) -> Result<Vec<u8>, AllocError>
    requires { places ≤ 17 }
    ensures { IfOk result (λ text. text.items ≡ ply_text places vertices.now triangles.now) }
{
    let mut text = Vec::new(alloc);
    put_header(vertices.len() as u128, triangles.len() as u128, &mut text)?;
    put_points(vertices, places, &mut text)?;
    put_listed_faces(triangles, &mut text)?;
    Ok(text)
}
