// Lines of points and of indices.
ghost use Rattle.std.specs.Prelude.{◌≡◌, ◌≤◌, ◌++◌, OnOk, decimal, flat_map};
ghost use Rattle.mesh_write.specs.Text.Lines.{coordinate_text, spaced, point_line, index_text, indices_line, listed_face};

use crate::vertices::{DecimalPoint, IndexedTriangle};
use itoa::Buffer;
use mesh_number::put_shifted;
use std::alloc::AllocError;

// Appends a coordinate, which is so many units of the last place.
fn put_coordinate(units: i128, places: u32, out: &mut Vec<u8>) -> Result<(), AllocError>
    requires { places ≤ 17 }
    ensures { OnOk result (out.new.items ≡ out.old.items ++ coordinate_text places units) }
{
    put_shifted(units < 0, units.unsigned_abs(), places, out)
}

fn put_spaced(units: i128, places: u32, out: &mut Vec<u8>) -> Result<(), AllocError>
    requires { places ≤ 17 }
    ensures { OnOk result (out.new.items ≡ out.old.items ++ spaced places units) }
{
    out.extend_from_slice(b" ")?;
    put_coordinate(units, places, out)
}

/// Appends the coordinates of a point, and ends the line.
pub fn put_point(point: &DecimalPoint, places: u32, out: &mut Vec<u8>) -> Result<(), AllocError>
    requires { places ≤ 17 }
    ensures { OnOk result (out.new.items ≡ out.old.items ++ point_line places point.now) }
{
    put_coordinate(point.x, places, out)?;
    put_spaced(point.y, places, out)?;
    put_spaced(point.z, places, out)?;
    out.extend_from_slice(b"\n")
}

/// Appends the coordinates of each point in a line of its own.
pub fn put_points(points: &[DecimalPoint], places: u32, out: &mut Vec<u8>) -> Result<(), AllocError>
    requires { places ≤ 17 }
    ensures { OnOk result (out.new.items ≡ out.old.items ++ flat_map (point_line places) points.now) }
{
    for point in points {
        put_point(point, places, out)?;
    }
    Ok(())
}

/// Appends a number.
pub fn put_number(number: u128, out: &mut Vec<u8>) -> Result<(), AllocError>
    ensures { OnOk result (out.new.items ≡ out.old.items ++ decimal number) }
{
    let mut buffer = Buffer::new();
    out.extend_from_slice(buffer.format(number).as_bytes())
}

fn put_index(index: u128, out: &mut Vec<u8>) -> Result<(), AllocError>
    ensures { OnOk result (out.new.items ≡ out.old.items ++ index_text index) }
{
    out.extend_from_slice(b" ")?;
    put_number(index, out)
}

/// Appends three indices with a space before each, and ends the line.
#[tactic(auto, unfolding(crate::specs::Text::Lines::indices_line))]
pub fn put_indices(a: u128, b: u128, c: u128, out: &mut Vec<u8>) -> Result<(), AllocError>
    ensures { OnOk result (out.new.items ≡ out.old.items ++ indices_line a b c) }
{
    put_index(a, out)?;
    put_index(b, out)?;
    put_index(c, out)?;
    out.extend_from_slice(b"\n")
}

// Appends the line of a triangle with the number of its corners before their indices.
#[tactic(auto, unfolding(crate::specs::Text::Lines::listed_face))]
fn put_listed_face(triangle: &IndexedTriangle, out: &mut Vec<u8>) -> Result<(), AllocError>
    ensures { OnOk result (out.new.items ≡ out.old.items ++ listed_face triangle.now) }
{
    out.extend_from_slice(b"3")?;
    put_indices(
        triangle.a as u128,
        triangle.b as u128,
        triangle.c as u128,
        out,
    )
}

/// Appends such a line for each triangle.
pub fn put_listed_faces(triangles: &[IndexedTriangle], out: &mut Vec<u8>) -> Result<(), AllocError>
    ensures { OnOk result (out.new.items ≡ out.old.items ++ flat_map listed_face triangles.now) }
{
    for triangle in triangles {
        put_listed_face(triangle, out)?;
    }
    Ok(())
}
