// OBJ.
ghost use Rattle.std.specs.Prelude.{◌≡◌, ◌≤◌, ◌++◌, IfOk, OnOk, flat_map};
ghost use Rattle.mesh_write.specs.Text.Texts.{obj_vertex, obj_face, obj_lines, obj_text};

use crate::text::lines::{put_indices, put_point};
use crate::vertices::{DecimalPoint, IndexedTriangle};
use std::alloc::{AllocError, Global};

const HEADER: &[u8] = b"# ember-mesh: rounded from an exact result\n";

#[tactic(auto, unfolding(crate::specs::Text::Texts::obj_vertex))]
fn put_vertex(point: &DecimalPoint, places: u32, out: &mut Vec<u8>) -> Result<(), AllocError>
    requires { places ≤ 17 }
    ensures { OnOk result (out.new.items ≡ out.old.items ++ obj_vertex places point.now) }
{
    out.extend_from_slice(b"v ")?;
    put_point(point, places, out)
}

fn put_vertices(points: &[DecimalPoint], places: u32, out: &mut Vec<u8>) -> Result<(), AllocError>
    requires { places ≤ 17 }
    ensures { OnOk result (out.new.items ≡ out.old.items ++ flat_map (obj_vertex places) points.now) }
{
    for point in points {
        put_vertex(point, places, out)?;
    }
    Ok(())
}

// Appends the line of a triangle. Vertices are counted from 1.
#[tactic(auto, unfolding(crate::specs::Text::Texts::obj_face))]
fn put_face(triangle: &IndexedTriangle, out: &mut Vec<u8>) -> Result<(), AllocError>
    ensures { OnOk result (out.new.items ≡ out.old.items ++ obj_face triangle.now) }
{
    out.extend_from_slice(b"f")?;
    put_indices(
        triangle.a as u128 + 1,
        triangle.b as u128 + 1,
        triangle.c as u128 + 1,
        out,
    )
}

fn put_faces(triangles: &[IndexedTriangle], out: &mut Vec<u8>) -> Result<(), AllocError>
    ensures { OnOk result (out.new.items ≡ out.old.items ++ flat_map obj_face triangles.now) }
{
    for triangle in triangles {
        put_face(triangle, out)?;
    }
    Ok(())
}

/// Appends the lines of an OBJ behind its comment: one for each vertex, then one for each triangle,
/// in their order. Coordinates are units of the last of so many decimal places, of which there are
/// at most 17. The one error is out-of-memory.
pub fn put_obj_lines(
    vertices: &[DecimalPoint],
    triangles: &[IndexedTriangle],
    places: u32,
    out: &mut Vec<u8>,
) -> Result<(), AllocError>
    requires { places ≤ 17 }
    ensures { OnOk result (out.new.items ≡ out.old.items ++ obj_lines places vertices.now triangles.now) }
{
    put_vertices(vertices, places, out)?;
    put_faces(triangles, out)
}

/// The OBJ with these vertices and triangles.
pub fn obj_text(
    alloc: Global,
    vertices: &[DecimalPoint],
    triangles: &[IndexedTriangle],
    places: u32,
) -> Result<Vec<u8>, AllocError>
    requires { places ≤ 17 }
    ensures { IfOk result (λ text. text.items ≡ obj_text places vertices.now triangles.now) }
{
    let mut text = Vec::from_slice(alloc, HEADER)?;
    put_obj_lines(vertices, triangles, places, &mut text)?;
    Ok(text)
}
