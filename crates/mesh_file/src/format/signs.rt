// By what a file shows its format.
ghost use Rattle.std.specs.Prelude.{◌≡◌, ◌≤◌, length};
ghost use Rattle.ember_model.specs.Limits.{most_bytes};
ghost use Rattle.mesh_file.specs.Format.Formats.{ends_line, is_ply, has_ending, is_off_file, has_gltf_name, begins_object, is_gltf_file, has_stl_name};

use mesh_gltf::is_glb;
use mesh_read::{Blanks, Part, begins_with_count, is_off, next_word_between};

// Whether a line ends where these bytes begin.
fn is_line_end(bytes: &[u8]) -> bool
    ensures { result ≡ ends_line bytes.now }
{
    match bytes.split_first() {
        Some((byte, _)) => *byte == b'\n' || *byte == b'\r',
        None => true,
    }
}

// Whether the file begins with `ply` and a line end.
pub(crate) fn is_ply_file(bytes: &[u8]) -> bool
    ensures { result ≡ is_ply bytes.now }
{
    bytes.starts_with(b"ply") && is_line_end(bytes.split_at(3).1)
}

// Whether the name has this ending, in any case.
fn has_ending(name: &[u8], ending: &[u8]) -> bool
    ensures { result ≡ has_ending ending.now name.now }
{
    let end = name.split_at(name.len().saturating_sub(ending.len())).1;
    end.eq_ignore_ascii_case(ending)
}

// Whether the first word of the file is a keyword of OFF, or a number where the name ends in `.off`.
pub(crate) fn is_off_file(name: &[u8], bytes: &[u8]) -> bool
    requires { length bytes.now ≤ most_bytes }
    ensures { result ≡ is_off_file name.now bytes.now }
{
    is_off(bytes) || has_ending(name, b".off") && begins_with_count(bytes)
}

// Whether the name ends in `.gltf` or `.glb`, in any case.
fn is_gltf_name(name: &[u8]) -> bool
    ensures { result ≡ has_gltf_name name.now }
{
    has_ending(name, b".gltf") || has_ending(name, b".glb")
}

// Whether the first word begins an object of JSON.
fn begins_object(bytes: &[u8]) -> bool
    requires { length bytes.now ≤ most_bytes }
    ensures { result ≡ begins_object bytes.now }
{
    match next_word_between(Part::of_file(bytes), Blanks::Any) {
        Some((word, _)) => word.bytes.starts_with(b"{"),
        None => false,
    }
}

// Whether the file is a GLB, or begins an object of JSON where the name is that of a glTF.
pub(crate) fn is_gltf_file(name: &[u8], bytes: &[u8]) -> bool
    requires { length bytes.now ≤ most_bytes }
    ensures { result ≡ is_gltf_file name.now bytes.now }
{
    is_glb(bytes) || is_gltf_name(name) && begins_object(bytes)
}

// Whether the name ends in `.stl`, in any case.
pub(crate) fn is_stl_name(name: &[u8]) -> bool
    ensures { result ≡ has_stl_name name.now }
{
    has_ending(name, b".stl")
}
