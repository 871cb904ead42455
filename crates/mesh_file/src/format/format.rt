// The format of a file.
ghost use Rattle.std.specs.Prelude.{◌≡◌, ◌≤◌, length};
ghost use Rattle.ember_model.specs.Limits.{most_bytes};
ghost use Rattle.mesh_file.specs.Format.Formats.{format_said};

use crate::format::signs::{is_gltf_file, is_off_file, is_ply_file, is_stl_name};
use mesh_read::{is_ascii_stl, is_binary_stl};

/// How the triangles of a file are written.
#[derive(Clone, Copy, Debug, PartialEq, Eq)]
pub enum Format {
    Ply,
    BinaryStl,
    AsciiStl,
    Off,
    /// A GLB, or glTF as JSON.
    Gltf,
    /// An STL by its name, but not by its bytes.
    CutOffStl,
    /// Every other file.
    Obj,
}

/// The format of a file with this name and these bytes, at most 2^28 of them. It is the first of
/// these that fits:
///
/// - PLY, if the file begins with `ply`, in small letters, and a line feed, a carriage return or
///   nothing follows.
/// - binary STL, if it has exactly 84 + 50 n bytes, where n is the number in the four bytes from
///   byte 80 on, the lowest byte first.
/// - ASCII STL, if its first word is `solid`, and `facet` or `endsolid` occurs in its first 4,096
///   bytes, in any case.
/// - OFF, if its first word is a keyword of OFF ([`is_off`](mesh_read::is_off)), or a natural number
///   and its name ends in `.off`, in any case.
/// - glTF, if it begins with `glTF` ([`is_glb`](mesh_gltf::is_glb)), or its first word begins with `{`
///   and its name ends in `.gltf` or `.glb`, in any case.
/// - an STL that is cut off, if its name ends in `.stl`, in any case.
/// - OBJ.
pub fn format_of(name: &[u8], bytes: &[u8]) -> Format
    requires { length bytes.now ≤ most_bytes }
    ensures { result ≡ format_said name.now bytes.now }
{
    if is_ply_file(bytes) {
        Format::Ply
    } else if is_binary_stl(bytes) {
        Format::BinaryStl
    } else if is_ascii_stl(bytes) {
        Format::AsciiStl
    } else if is_off_file(name, bytes) {
        Format::Off
    } else if is_gltf_file(name, bytes) {
        Format::Gltf
    } else if is_stl_name(name) {
        Format::CutOffStl
    } else {
        Format::Obj
    }
}
