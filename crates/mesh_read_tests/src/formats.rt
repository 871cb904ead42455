// The formats of files.
use mesh_file::{Format, format_of};

// The bytes of a binary STL of no facets.
static NO_FACETS: [u8; 84] = [0; 84];

// Each file here is short enough.
fn format_in(name: &[u8], bytes: &[u8]) -> Option<Format> {
    if bytes.len() > 268_435_456 {
        return None;
    }
    Some(format_of(name, bytes))
}

static FORMATS: [(&[u8], &[u8], Format); 23] = [
    (b"a.obj", b"ply\nformat ascii 1.0\n", Format::Ply),
    (b"a", b"ply\r\n", Format::Ply),
    (b"a.ply", b"ply", Format::Ply),
    (b"a.ply", b"ply format", Format::Obj),
    (b"a.ply", b"PLY\n", Format::Obj),
    (b"a", b"\n SOLID a\n Facet\n", Format::AsciiStl),
    (b"a", b"solid\nendsolid", Format::AsciiStl),
    (b"a.STL", b"solid a\n", Format::CutOffStl),
    (b"stl", b"solid a\n", Format::Obj),
    (b"a.stl", b"off\n", Format::Off),
    (b"a", b" COFF 3 1 0\n", Format::Off),
    (b"a", b"NOFF", Format::Off),
    (b"a.off", b"OFFS 3 1 0\n", Format::Obj),
    (b"a.OFF", b"# a\n3 1 0\n", Format::Off),
    (b"a.obj", b"3 1 0\n", Format::Obj),
    (b"a", b"\xEF\xBB\xBF# a\n\nstnOFF\n", Format::Off),
    (b"a.obj", b"4off", Format::Off),
    (b"a.stl", b"glTF\x02\0\0\0", Format::Gltf),
    (b"a.GLTF", b"\n {\"asset\":", Format::Gltf),
    (b"a.glb", b"{}", Format::Gltf),
    (b"a.json", b"{}", Format::Obj),
    (b".stl", b"", Format::CutOffStl),
    (b"", b"", Format::Obj),
];

#[test]
fn formats_by_content_and_then_by_name(rt: HostRuntime) {
    for &(name, bytes, want) in &FORMATS {
        assert!(rt; format_in(name, bytes) == Some(want));
    }
    assert!(rt; format_in(b"a.stl", &NO_FACETS) == Some(Format::BinaryStl));
    assert!(rt; format_in(b"a.stl", &NO_FACETS[..83]) == Some(Format::CutOffStl));
}
