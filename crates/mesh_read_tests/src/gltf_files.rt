// Documents of glTF that are read, and their first faults.
use mesh_gltf::{GltfFault, read_gltf};
use mesh_number::floor_times;
use mesh_read::{Facet, Surface};
use mesh_write::{FloatPoint, FloatTriangle, glb_bytes};
use std::alloc::{AllocError, Global};
use std::test::Fail;

// Four points, (0, 0, 0), (1, 0, 0), (0, 1, 0) and (0.5, 0.25, -3), and their indices as bytes. In
// Python the texts of the buffers are
// base64.b64encode(struct.pack("<12f", 0, 0, 0, 1, 0, 0, 0, 1, 0, 0.5, 0.25, -3)) and
// base64.b64encode(bytes([0, 1, 2, 3])).
const DOCUMENT: &str = "{\"asset\":{\"version\":\"2.0\"},\"scenes\":[{\"nodes\":[1]}],\
    \"nodes\":[{\"mesh\":0,\"translation\":[0,0.0,-0.0]},{\"children\":[0],\"scale\":[1,1.0,1]}],\
    \"meshes\":[{\"primitives\":[{\"mode\":1},\
    {\"mode\":5,\"indices\":1,\"attributes\":{\"POSITION\":0}}]}],\
    \"accessors\":[{\"bufferView\":0,\"componentType\":5126,\"type\":\"VEC3\",\"count\":4},\
    {\"bufferView\":1,\"componentType\":5121,\"type\":\"SCALAR\",\"count\":4}],\
    \"bufferViews\":[{\"buffer\":0,\"byteLength\":48},{\"buffer\":1,\"byteLength\":4}],\
    \"buffers\":[{\"byteLength\":48,\"uri\":\"data:application/octet-stream;base64,\
    AAAAAAAAAAAAAAAAAACAPwAAAAAAAAAAAAAAAAAAgD8AAAAAAAAAPwAAgD4AAEDA\"},\
    {\"byteLength\":4,\"uri\":\"data:application/gltf-buffer;base64,AAECAw==\"}]}";

// Each file here is short enough.
fn read<'a>(alloc: Global, bytes: &[u8]) -> Result<Surface<'a>, GltfFault> {
    if bytes.len() > 268_435_456 {
        return Err(GltfFault::OutOfMemory);
    }
    read_gltf(alloc, bytes)
}

// The document with one text in place of another.
fn changed(alloc: Global, old: &str, new: &str) -> Result<String, AllocError> {
    match DOCUMENT.split_once(old) {
        Some((before, after)) => format!(in alloc; "{before}{new}{after}"),
        None => Ok(String::new(alloc)),
    }
}

// The numbers of vertices and triangles, or the fault.
fn count(alloc: Global, bytes: &[u8]) -> Result<(usize, usize), GltfFault> {
    match read(alloc, bytes) {
        Ok(surface) => Ok((surface.vertices.len(), surface.facets.len())),
        Err(fault) => Err(fault),
    }
}

#[test]
fn a_strip_by_its_indices(rt: HostRuntime) -> Result<(), Fail> {
    let Ok(surface) = read(rt.alloc(), DOCUMENT.as_bytes()) else {
        return Err(Fail::from("refused"));
    };
    let facets = [
        Facet {
            corners: [0, 1, 2],
            place: 1,
        },
        Facet {
            corners: [2, 1, 3],
            place: 2,
        },
    ];
    assert!(rt; surface.facets.as_slice() == facets.as_slice());
    assert!(rt; surface.vertices.len() == 4);
    let Some(vertex) = surface.vertices.get(3) else {
        return Err(Fail::from("no vertex"));
    };
    assert!(rt; floor_times(&vertex.y, 100) == Some(25));
    assert!(rt; floor_times(&vertex.z, 100) == Some(-300));
    Ok(())
}

#[test]
fn documents_that_are_read(rt: HostRuntime) -> Result<(), Fail> {
    let rows = [
        ("\"mode\":5,", "\"mode\":6,", (4, 2)),
        ("\"mode\":5,", "", (4, 1)),
        ("\"indices\":1,", "", (4, 2)),
        (
            "\"byteLength\":4}",
            "\"byteLength\":4,\"byteStride\":1}",
            (4, 2),
        ),
        ("\"count\":4}]", "\"count\":3}]", (4, 1)),
    ];
    for (old, new, want) in rows {
        let text = changed(rt.alloc(), old, new)?;
        assert!(rt; count(rt.alloc(), text.as_bytes()) == Ok(want));
    }
    Ok(())
}

#[test]
fn documents_that_are_refused(rt: HostRuntime) -> Result<(), Fail> {
    let rows = [
        ("{\"asset\"", "\"asset\"", GltfFault::NoJson),
        (
            "{\"asset\"",
            "{\"extensionsRequired\":[\"KHR_draco_mesh_compression\"],\"asset\"",
            GltfFault::Draco,
        ),
        (
            "{\"asset\"",
            "{\"extensionsRequired\":[\"EXT_meshopt_compression\"],\"asset\"",
            GltfFault::Meshopt,
        ),
        (
            "{\"asset\"",
            "{\"extensionsRequired\":[\"EXT_mesh_gpu_instancing\"],\"asset\"",
            GltfFault::Instances,
        ),
        ("AAECAw==", "AAECA", GltfFault::NoBuffer(1)),
        (
            "application/gltf-buffer",
            "text/plain",
            GltfFault::NoBuffer(1),
        ),
        ("\"scenes\"", "\"scene\":1,\"scenes\"", GltfFault::NoScene),
        // There are two nodes, and three come.
        (
            "\"nodes\":[1]",
            "\"nodes\":[1,0]",
            GltfFault::TwiceInScene(0),
        ),
        // Indices of two bytes have no room in the buffer.
        ("5121,", "5123,", GltfFault::Accessor(1)),
        ("\"children\":[0]", "\"children\":[2]", GltfFault::Node(2)),
        (
            "\"children\":[0]",
            "\"children\":[1]",
            GltfFault::TwiceInScene(1),
        ),
        ("[1,1.0,1]", "[1,1.5,1]", GltfFault::Transform(1)),
        ("[0,0.0,-0.0]", "[0,0]", GltfFault::Transform(0)),
        ("\"mesh\":0", "\"mesh\":1", GltfFault::Mesh(1)),
        ("\"POSITION\"", "\"NORMAL\"", GltfFault::Mesh(0)),
        ("\"mode\":5", "\"mode\":7", GltfFault::Mesh(0)),
        ("\"POSITION\":0", "\"POSITION\":2", GltfFault::Accessor(2)),
        ("\"VEC3\"", "\"VEC4\"", GltfFault::Accessor(0)),
        (
            "\"VEC3\",\"count\":4",
            "\"VEC3\",\"count\":5",
            GltfFault::Accessor(0),
        ),
        ("\"VEC3\"", "\"VEC3\",\"sparse\":{}", GltfFault::Sparse(0)),
        (
            "AAAAAAAAAAAAAAAAAACAPw",
            "AADAfwAAAAAAAAAAAACAPw",
            GltfFault::NotFinite(0),
        ),
        ("AAECAw==", "AAECBA==", GltfFault::NoSuchVertex(0)),
        ("\"mode\":5", "\"mode\":3", GltfFault::NoTriangles),
        (
            "AAAAAAAAAAAAAAAAAACAPw",
            "qV/jWAAAAAAAAAAAAACAPw",
            GltfFault::TooLarge(1),
        ),
    ];
    for (old, new, want) in rows {
        let text = changed(rt.alloc(), old, new)?;
        assert!(rt; count(rt.alloc(), text.as_bytes()) == Err(want));
    }
    Ok(())
}

#[test]
fn glb_files_that_are_refused(rt: HostRuntime) {
    let rows: [(&[u8], GltfFault); 6] = [
        (b"glTF\x02\0\0", GltfFault::CutOff),
        (b"glTF\x01\0\0\0\x0C\0\0\0", GltfFault::Version(1)),
        (b"glTF\x02\0\0\0\x0D\0\0\0", GltfFault::CutOff),
        (b"glTF\x02\0\0\0\x0C\0\0\0", GltfFault::CutOff),
        (
            b"glTF\x02\0\0\0\x18\0\0\0\x04\0\0\0BIN\0{}  ",
            GltfFault::NoJson,
        ),
        (
            b"glTF\x02\0\0\0\x18\0\0\0\x04\0\0\0JSON{}  ",
            GltfFault::NoScene,
        ),
    ];
    for (bytes, want) in rows {
        assert!(rt; count(rt.alloc(), bytes) == Err(want));
    }
}

fn point(x: u32, y: u32, z: u32) -> FloatPoint {
    FloatPoint { x, y, z }
}

#[test]
fn a_glb_that_was_written(rt: HostRuntime) -> Result<(), Fail> {
    let triangle = FloatTriangle {
        normal: point(0, 0, 0x3f80_0000),
        a: point(0, 0, 0),
        b: point(0x3fc0_0000, 0, 0),
        c: point(0, 0x3dcc_cccd, 0),
    };
    let Ok(bytes) = glb_bytes(rt.alloc(), &[triangle]) else {
        return Err(Fail::from("refused"));
    };
    assert!(rt; count(rt.alloc(), &bytes) == Ok((3, 1)));
    Ok(())
}
