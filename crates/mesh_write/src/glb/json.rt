// The JSON of a GLB.
ghost use Rattle.std.specs.Prelude.{◌≡◌, ◌++◌, ◌*◌, IfOk, OnOk, decimal};
ghost use Rattle.mesh_write.specs.Glb.Json.{buffers_text, view_text, views_text, accessor_text, accessors_text, mesh_json, padded};

use itoa::Buffer;
use std::alloc::{AllocError, Global};

// What is the same for each mesh.
const SCENE: &[u8] = b"{\"asset\":{\"version\":\"2.0\",\"generator\":\"ember-mesh\"},\
\"scene\":0,\"scenes\":[{\"nodes\":[0]}],\"nodes\":[{\"mesh\":0}],\
\"meshes\":[{\"primitives\":[{\"attributes\":{\"POSITION\":0,\"NORMAL\":1},\"material\":0}]}],\
\"materials\":[{\"pbrMetallicRoughness\":\
{\"baseColorFactor\":[0.8,0.55,0.3,1],\"metallicFactor\":0.1}}],";

fn put_decimal(number: u128, out: &mut Vec<u8>) -> Result<(), AllocError>
    ensures { OnOk result (out.new.items ≡ out.old.items ++ decimal number) }
{
    let mut buffer = Buffer::new();
    out.extend_from_slice(buffer.format(number).as_bytes())
}

#[tactic(auto, unfolding(crate::specs::Glb::Json::buffers_text))]
fn put_buffers(size: u128, out: &mut Vec<u8>) -> Result<(), AllocError>
    ensures { OnOk result (out.new.items ≡ out.old.items ++ buffers_text size) }
{
    out.extend_from_slice(b"\"buffers\":[{\"byteLength\":")?;
    put_decimal(size, out)?;
    out.extend_from_slice(b"}],")
}

#[tactic(auto, unfolding(crate::specs::Glb::Json::view_text))]
fn put_view(offset: u128, size: u128, out: &mut Vec<u8>) -> Result<(), AllocError>
    ensures { OnOk result (out.new.items ≡ out.old.items ++ view_text offset size) }
{
    out.extend_from_slice(b"{\"buffer\":0,\"byteOffset\":")?;
    put_decimal(offset, out)?;
    out.extend_from_slice(b",\"byteLength\":")?;
    put_decimal(size, out)?;
    out.extend_from_slice(b",\"target\":34962}")
}

#[tactic(auto, unfolding(crate::specs::Glb::Json::views_text))]
fn put_views(size: u128, out: &mut Vec<u8>) -> Result<(), AllocError>
    ensures { OnOk result (out.new.items ≡ out.old.items ++ views_text size) }
{
    out.extend_from_slice(b"\"bufferViews\":[")?;
    put_view(0, size, out)?;
    out.extend_from_slice(b",")?;
    put_view(size, size, out)?;
    out.extend_from_slice(b"],")
}

#[tactic(auto, unfolding(crate::specs::Glb::Json::accessor_text))]
fn put_accessor(view: u128, count: u128, out: &mut Vec<u8>) -> Result<(), AllocError>
    ensures { OnOk result (out.new.items ≡ out.old.items ++ accessor_text view count) }
{
    out.extend_from_slice(b"{\"bufferView\":")?;
    put_decimal(view, out)?;
    out.extend_from_slice(b",\"componentType\":5126,\"count\":")?;
    put_decimal(count, out)?;
    out.extend_from_slice(b",\"type\":\"VEC3\"")
}

#[tactic(auto, unfolding(crate::specs::Glb::Json::accessors_text))]
fn put_accessors(count: u128, low: &[u8], high: &[u8], out: &mut Vec<u8>) -> Result<(), AllocError>
    ensures { OnOk result (out.new.items ≡ out.old.items ++ accessors_text count low.now high.now) }
{
    out.extend_from_slice(b"\"accessors\":[")?;
    put_accessor(0, count, out)?;
    out.extend_from_slice(b",\"min\":")?;
    out.extend_from_slice(low)?;
    out.extend_from_slice(b",\"max\":")?;
    out.extend_from_slice(high)?;
    out.extend_from_slice(b"},")?;
    put_accessor(1, count, out)?;
    out.extend_from_slice(b"}]}")
}

// Appends spaces up to a multiple of four bytes.
fn pad(text: &mut Vec<u8>) -> Result<(), AllocError>
    ensures { OnOk result (text.new.items ≡ padded text.old.items) }
{
    let missing = (4 - text.len() % 4) % 4;
    text.extend_from_slice(&b"   "[..missing])
}

/// The JSON of so many triangles, whose corners have these texts of their bounds, with spaces up to
/// a multiple of four bytes.
pub fn json_text(
    alloc: Global,
    triangles: usize,
    low: &[u8],
    high: &[u8],
) -> Result<Vec<u8>, AllocError>
    ensures { IfOk result (λ text. text.items ≡ padded (mesh_json triangles low.now high.now)) }
{
    let triangles = triangles as u128;
    let mut text = Vec::from_slice(alloc, SCENE)?;
    put_buffers(72 * triangles, &mut text)?;
    put_views(36 * triangles, &mut text)?;
    put_accessors(3 * triangles, low, high, &mut text)?;
    pad(&mut text)?;
    Ok(text)
}
