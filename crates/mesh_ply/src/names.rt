// Names that the format gives a meaning.
ghost use Rattle.std.specs.Prelude.{◌≡◌, ◌||◌};
ghost use Rattle.std.specs.Str.{bytes_eq};
ghost use Rattle.mesh_ply.specs.Header.{is_either, float_named, wide_named, type_named, encoding_named, kind_named, axis_of_name, axis_named, are_corners, is_passed};

use crate::declarations::{Axis, ByteOrder, ElementKind, Encoding, ScalarType};

// Whether the text is the name.
pub(crate) fn is_name(text: &[u8], name: &[u8]) -> bool
    ensures { result ≡ bytes_eq text.now name.now }
{
    text == name
}

// Whether the text is one of the two names.
fn has_name(text: &[u8], old: &[u8], new: &[u8]) -> bool
    ensures { result ≡ is_either text.now old.now new.now }
{
    is_name(text, old) || is_name(text, new)
}

fn float_type(name: &[u8]) -> Option<ScalarType>
    ensures { result ≡ float_named name.now }
{
    if has_name(name, b"float", b"float32") {
        return Some(ScalarType::Float32);
    }
    if has_name(name, b"double", b"float64") {
        return Some(ScalarType::Float64);
    }
    None
}

fn wide_type(name: &[u8]) -> Option<ScalarType>
    ensures { result ≡ wide_named name.now }
{
    if has_name(name, b"int", b"int32") {
        return Some(ScalarType::Int32);
    }
    if has_name(name, b"uint", b"uint32") {
        return Some(ScalarType::Uint32);
    }
    float_type(name)
}

// The type with this name.
pub(crate) fn scalar_type(name: &[u8]) -> Option<ScalarType>
    ensures { result ≡ type_named name.now }
{
    if has_name(name, b"char", b"int8") {
        return Some(ScalarType::Int8);
    }
    if has_name(name, b"uchar", b"uint8") {
        return Some(ScalarType::Uint8);
    }
    if has_name(name, b"short", b"int16") {
        return Some(ScalarType::Int16);
    }
    if has_name(name, b"ushort", b"uint16") {
        return Some(ScalarType::Uint16);
    }
    wide_type(name)
}

pub(crate) fn encoding(name: &[u8]) -> Option<Encoding>
    ensures { result ≡ encoding_named name.now }
{
    if is_name(name, b"ascii") {
        return Some(Encoding::Ascii);
    }
    if is_name(name, b"binary_little_endian") {
        return Some(Encoding::Binary(ByteOrder::Little));
    }
    if is_name(name, b"binary_big_endian") {
        return Some(Encoding::Binary(ByteOrder::Big));
    }
    None
}

pub(crate) fn element_kind(name: &[u8]) -> ElementKind
    ensures { result ≡ kind_named name.now }
{
    if is_name(name, b"vertex") {
        return ElementKind::Vertex;
    }
    if is_name(name, b"face") {
        return ElementKind::Face;
    }
    ElementKind::Other
}

#[tactic(none)]
fn axis_with_name(name: &[u8]) -> Option<Axis>
    ensures { result ≡ axis_of_name name.now }
{
    if is_name(name, b"x") {
        return Some(Axis::X);
    }
    if is_name(name, b"y") {
        return Some(Axis::Y);
    }
    if is_name(name, b"z") {
        return Some(Axis::Z);
    }
    None
}

// The coordinate that a property of this name is.
pub(crate) fn axis(kind: ElementKind, name: &[u8]) -> Option<Axis>
    ensures { result ≡ axis_named kind name.now }
{
    match kind {
        ElementKind::Vertex => axis_with_name(name),
        ElementKind::Face | ElementKind::Other => None,
    }
}

// Whether a list of this name has the corners of a face.
pub(crate) fn lists_corners(kind: ElementKind, name: &[u8]) -> bool
    ensures { result ≡ are_corners kind name.now }
{
    match kind {
        ElementKind::Face => has_name(name, b"vertex_indices", b"vertex_index"),
        ElementKind::Vertex | ElementKind::Other => false,
    }
}

// Whether a line with this keyword says nothing of the rows.
pub(crate) fn passes_over(keyword: &[u8]) -> bool
    ensures { result ≡ is_passed keyword.now }
{
    is_name(keyword, b"ply") || is_name(keyword, b"comment") || is_name(keyword, b"obj_info")
}
