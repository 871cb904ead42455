// The bytes of a binary STL.
ghost use Rattle.std.specs.Prelude.{◌≡◌, ◌↔◌, ◌^◌, ◌≤◌, ◌++◌, length, flat_map, Err, IfOk, OnOk};
ghost use Rattle.mesh_write.specs.declared.stl.fault.StlWriteFault.TheVariants.{TooManyTriangles};
ghost use Rattle.mesh_write.specs.Stl.Written.{stl_header, number_bytes, point_bytes, triangle_bytes, stl_bytes_of};
ghost use Rattle.mesh_write.specs.Stl.ReadBack.{IsReadBack};

use crate::stl::fault::StlWriteFault;
use crate::stl::triangle::{FloatPoint, FloatTriangle};
use std::alloc::{AllocError, Global};

const HEADER: &[u8; 80] =
    b"ember-mesh: rounded from an exact result                                        ";

#[tactic(auto, unfolding(crate::specs::Stl::Written::stl_header))]
fn put_header(out: &mut Vec<u8>) -> Result<(), AllocError>
    ensures { OnOk result (out.new.items ≡ out.old.items ++ stl_header) }
{
    out.extend_from_slice(HEADER)
}

/// Appends the four bytes of a number, the lowest first.
#[tactic(auto, unfolding(crate::specs::Stl::Written::number_bytes))]
pub fn put_number(number: u32, out: &mut Vec<u8>) -> Result<(), AllocError>
    ensures { OnOk result (out.new.items ≡ out.old.items ++ number_bytes number) }
{
    out.extend_from_slice(&[
        (number % 256) as u8,
        (number / 256 % 256) as u8,
        (number / 65_536 % 256) as u8,
        (number / 16_777_216) as u8,
    ])
}

/// Appends the coordinates of a point, each in four bytes.
#[tactic(auto, unfolding(crate::specs::Stl::Written::point_bytes))]
pub fn put_point(point: &FloatPoint, out: &mut Vec<u8>) -> Result<(), AllocError>
    ensures { OnOk result (out.new.items ≡ out.old.items ++ point_bytes point.now) }
{
    put_number(point.x, out)?;
    put_number(point.y, out)?;
    put_number(point.z, out)
}

#[tactic(auto, unfolding(crate::specs::Stl::Written::triangle_bytes))]
fn put_triangle(triangle: &FloatTriangle, out: &mut Vec<u8>) -> Result<(), AllocError>
    ensures { OnOk result (out.new.items ≡ out.old.items ++ triangle_bytes triangle.now) }
{
    put_point(&triangle.normal, out)?;
    put_point(&triangle.a, out)?;
    put_point(&triangle.b, out)?;
    put_point(&triangle.c, out)?;
    out.extend_from_slice(&[0, 0])
}

fn put_triangles(triangles: &[FloatTriangle], out: &mut Vec<u8>) -> Result<(), AllocError>
    ensures { OnOk result (out.new.items ≡ out.old.items ++ flat_map triangle_bytes triangles.now) }
{
    for triangle in triangles {
        put_triangle(triangle, out)?;
    }
    Ok(())
}

fn all_bytes(alloc: Global, triangles: &[FloatTriangle], count: u32) -> Result<Vec<u8>, AllocError>
    requires { count ≡ length triangles.now }
    ensures { IfOk result (λ bytes. bytes.items ≡ stl_bytes_of triangles.now) }
{
    let mut bytes = Vec::new(alloc);
    put_header(&mut bytes)?;
    put_number(count, &mut bytes)?;
    put_triangles(triangles, &mut bytes)?;
    Ok(bytes)
}

/// The bytes of the binary STL with these triangles, in their order. Reading them gives their
/// corners again, if all coordinates are finite. Refused are 2^32 triangles or more; the other
/// fault is out-of-memory.
pub fn stl_bytes(alloc: Global, triangles: &[FloatTriangle]) -> Result<Vec<u8>, StlWriteFault>
    ensures bytes { IfOk result (λ bytes. bytes.items ≡ stl_bytes_of triangles.now) }
    ensures read_back { IfOk result (λ bytes. IsReadBack triangles.now bytes.items) }
    ensures many { result ≡ Err TooManyTriangles ↔ 2 ^ 32 ≤ length triangles.now }
{
    let Ok(count) = u32::try_from(triangles.len()) else {
        return Err(StlWriteFault::TooManyTriangles);
    };
    match all_bytes(alloc, triangles, count) {
        Ok(bytes) => Ok(bytes),
        Err(_) => Err(StlWriteFault::OutOfMemory),
    }
}
