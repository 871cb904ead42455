// The bytes of a GLB.
use mesh_write::{FloatPoint, FloatTriangle, glb_bytes};
use std::test::Fail;

// The JSON of a triangle with the corners (0, 0, 0), (1.5, 0, 0) and (0, 0.1, 0), where 0.1 is the
// nearest binary32, up to a multiple of four bytes.
const JSON: &[u8] = b"{\"asset\":{\"version\":\"2.0\",\"generator\":\"ember-mesh\"},\"scene\":0,\
    \"scenes\":[{\"nodes\":[0]}],\"nodes\":[{\"mesh\":0}],\
    \"meshes\":[{\"primitives\":[{\"attributes\":{\"POSITION\":0,\"NORMAL\":1},\
    \"material\":0}]}],\
    \"materials\":[{\"pbrMetallicRoughness\":{\"baseColorFactor\":[0.8,0.55,0.3,1],\
    \"metallicFactor\":0.1}}],\"buffers\":[{\"byteLength\":72}],\
    \"bufferViews\":[{\"buffer\":0,\"byteOffset\":0,\"byteLength\":36,\"target\":34962},\
    {\"buffer\":0,\"byteOffset\":36,\"byteLength\":36,\"target\":34962}],\
    \"accessors\":[{\"bufferView\":0,\"componentType\":5126,\"count\":3,\
    \"type\":\"VEC3\",\"min\":[0.0,0.0,0.0],\"max\":[1.5,0.10000000149011612,0.0]},\
    {\"bufferView\":1,\"componentType\":5126,\"count\":3,\"type\":\"VEC3\"}]}  ";

fn point(x: u32, y: u32, z: u32) -> FloatPoint {
    FloatPoint { x, y, z }
}

#[test]
fn one_triangle(rt: HostRuntime) -> Result<(), Fail> {
    let triangle = FloatTriangle {
        normal: point(0, 0, 0x3f80_0000),
        a: point(0, 0, 0),
        b: point(0x3fc0_0000, 0, 0),
        c: point(0, 0x3dcc_cccd, 0),
    };
    let Ok(bytes) = glb_bytes(rt.alloc(), &[triangle]) else {
        return Err(Fail::from("refused"));
    };
    assert!(rt; bytes.len() == 748);
    let (head, rest) = bytes.split_at(20);
    assert!(rt; head == b"glTF\x02\x00\x00\x00\xec\x02\x00\x00\x88\x02\x00\x00JSON".as_slice());
    assert!(rt; rest.starts_with(JSON));
    let numbers = bytes.split_at(748 - 80).1;
    assert!(rt; numbers.starts_with(b"\x48\0\0\0BIN\0\0\0\0\0"));
    assert!(rt; numbers.ends_with(b"\0\0\0\0\0\0\x80\x3f"));
    Ok(())
}

// A list of glTF is never empty.
#[test]
fn no_triangles(rt: HostRuntime) -> Result<(), Fail> {
    let Ok(bytes) = glb_bytes(rt.alloc(), &[]) else {
        return Err(Fail::from("refused"));
    };
    assert!(rt; bytes.len() == 96);
    assert!(rt; bytes.ends_with(b"\"scenes\":[{}]}"));
    Ok(())
}
