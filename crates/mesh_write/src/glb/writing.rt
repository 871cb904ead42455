// The bytes of a GLB.
ghost use Rattle.std.specs.Prelude.{◌≡◌, ◌<◌, ◌≤◌, ◌^◌, ◌++◌, length, flat_map, Err, IfOk, IfErr, OnOk};
ghost use Rattle.mesh_write.specs.declared.glb.fault.GlbWriteFault.TheVariants.{TooManyTriangles};
ghost use Rattle.mesh_write.specs.Glb.Json.{empty_json};
ghost use Rattle.mesh_write.specs.Glb.ReadBack.{IsReadBack};
ghost use Rattle.mesh_write.specs.Glb.Written.{file_head, json_chunk, data_head, corner_bytes, normal_bytes, data_of, empty_glb, glb_size, glb_of, IsJsonOf, IsMeshGlb, IsGlb, IsTooLong};

use crate::glb::bounds::bounds_of;
use crate::glb::coordinates::vector_text;
use crate::glb::fault::GlbWriteFault;
use crate::glb::json::json_text;
use crate::stl::{FloatTriangle, put_number, put_point};
use std::alloc::{AllocError, Global};

const EMPTY_JSON: &[u8; 76] =
    b"{\"asset\":{\"version\":\"2.0\",\"generator\":\"ember-mesh\"},\"scene\":0,\"scenes\":[{}]}";

#[tactic(auto, unfolding(crate::specs::Glb::Written::file_head))]
fn put_file_head(size: u32, out: &mut Vec<u8>) -> Result<(), AllocError>
    ensures { OnOk result (out.new.items ≡ out.old.items ++ file_head size) }
{
    out.extend_from_slice(b"glTF")?;
    put_number(2, out)?;
    put_number(size, out)
}

#[tactic(auto, unfolding(crate::specs::Glb::Written::json_chunk))]
fn put_json(text: &[u8], out: &mut Vec<u8>) -> Result<(), AllocError>
    requires { length text.now < 2 ^ 32 }
    ensures { OnOk result (out.new.items ≡ out.old.items ++ json_chunk text.now) }
{
    put_number(text.len() as u32, out)?;
    out.extend_from_slice(b"JSON")?;
    out.extend_from_slice(text)
}

#[tactic(auto, unfolding(crate::specs::Glb::Written::data_head))]
fn put_data_head(size: u32, out: &mut Vec<u8>) -> Result<(), AllocError>
    ensures { OnOk result (out.new.items ≡ out.old.items ++ data_head size) }
{
    put_number(size, out)?;
    out.extend_from_slice(b"BIN\0")
}

#[tactic(auto, unfolding(crate::specs::Glb::Written::corner_bytes))]
fn put_corners(triangle: &FloatTriangle, out: &mut Vec<u8>) -> Result<(), AllocError>
    ensures { OnOk result (out.new.items ≡ out.old.items ++ corner_bytes triangle.now) }
{
    put_point(&triangle.a, out)?;
    put_point(&triangle.b, out)?;
    put_point(&triangle.c, out)
}

#[tactic(auto, unfolding(crate::specs::Glb::Written::normal_bytes))]
fn put_normals(triangle: &FloatTriangle, out: &mut Vec<u8>) -> Result<(), AllocError>
    ensures { OnOk result (out.new.items ≡ out.old.items ++ normal_bytes triangle.now) }
{
    put_point(&triangle.normal, out)?;
    put_point(&triangle.normal, out)?;
    put_point(&triangle.normal, out)
}

/// Appends the coordinates of the corners of all triangles, each in four bytes.
pub fn put_all_corners(triangles: &[FloatTriangle], out: &mut Vec<u8>) -> Result<(), AllocError>
    ensures { OnOk result (out.new.items ≡ out.old.items ++ flat_map corner_bytes triangles.now) }
{
    for triangle in triangles {
        put_corners(triangle, out)?;
    }
    Ok(())
}

fn put_all_normals(triangles: &[FloatTriangle], out: &mut Vec<u8>) -> Result<(), AllocError>
    ensures { OnOk result (out.new.items ≡ out.old.items ++ flat_map normal_bytes triangles.now) }
{
    for triangle in triangles {
        put_normals(triangle, out)?;
    }
    Ok(())
}

// The GLB without a mesh.
fn without_mesh(alloc: Global) -> Result<Vec<u8>, AllocError>
    ensures { IfOk result (λ bytes. bytes.items ≡ empty_glb) }
{
    let mut bytes = Vec::new(alloc);
    put_file_head(96, &mut bytes)?;
    put_json(EMPTY_JSON, &mut bytes)?;
    Ok(bytes)
}

// The JSON of the triangles.
fn json_of(alloc: Global, triangles: &[FloatTriangle]) -> Result<Vec<u8>, AllocError>
    requires { 0 < length triangles.now }
    ensures { IfOk result (λ json. IsJsonOf triangles.now json.items) }
{
    let bounds = bounds_of(triangles);
    let low = vector_text(alloc, &bounds.low)?;
    let high = vector_text(alloc, &bounds.high)?;
    json_text(alloc, triangles.len(), &low, &high)
}

// The GLB of the triangles with this JSON, which has so many bytes.
fn with_json(
    alloc: Global,
    json: &[u8],
    triangles: &[FloatTriangle],
    size: u32,
) -> Result<Vec<u8>, AllocError>
    requires { size ≡ glb_size json.now (length triangles.now) }
    ensures { IfOk result (λ bytes. bytes.items ≡ glb_of json.now triangles.now) }
{
    let mut bytes = Vec::with_capacity(alloc, size as usize)?;
    put_file_head(size, &mut bytes)?;
    put_json(json, &mut bytes)?;
    put_data_head(72 * triangles.len() as u32, &mut bytes)?;
    put_all_corners(triangles, &mut bytes)?;
    put_all_normals(triangles, &mut bytes)?;
    Ok(bytes)
}

// The GLB of some triangles.
fn with_mesh(alloc: Global, triangles: &[FloatTriangle]) -> Result<Vec<u8>, GlbWriteFault>
    requires { 0 < length triangles.now }
    ensures glb { IfOk result (λ bytes. IsMeshGlb triangles.now bytes.items) }
    ensures many { result ≡ Err TooManyTriangles → IsTooLong triangles.now }
{
    let Ok(json) = json_of(alloc, triangles) else {
        return Err(GlbWriteFault::OutOfMemory);
    };
    let size = 28 + json.len() as u128 + 72 * triangles.len() as u128;
    let Ok(size) = u32::try_from(size) else {
        return Err(GlbWriteFault::TooManyTriangles);
    };
    match with_json(alloc, &json, triangles, size) {
        Ok(bytes) => Ok(bytes),
        Err(_) => Err(GlbWriteFault::OutOfMemory),
    }
}

/// The GLB of these triangles, in their order: a glTF 2.0 asset of one mesh without indices, with
/// the normal of its triangle at each corner. If all coordinates are finite, it has their bounds.
/// Its chunk of numbers, read again, gives the corners and the normals. Without triangles the asset
/// has no mesh. Refused is a GLB of 2^32 bytes or more; the other fault is out-of-memory.
pub fn glb_bytes(alloc: Global, triangles: &[FloatTriangle]) -> Result<Vec<u8>, GlbWriteFault>
    ensures glb { IfOk result (λ bytes. IsGlb triangles.now bytes.items) }
    ensures read_back { 0 < length triangles.now → IfOk result (λ bytes. IsReadBack triangles.now bytes.items) }
    ensures many { result ≡ Err TooManyTriangles → IsTooLong triangles.now }
{
    if !triangles.is_empty() {
        return with_mesh(alloc, triangles);
    }
    match without_mesh(alloc) {
        Ok(bytes) => Ok(bytes),
        Err(_) => Err(GlbWriteFault::OutOfMemory),
    }
}
