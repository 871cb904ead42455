// The line of JSON of a mesh.
ghost use Rattle.std.specs.Prelude.{◌≡◌, ◌++◌, decimal, List, ℕ, OnOk, IfOk, string_bytes};
ghost use Rattle.mesh_info.specs.Info.Lines.{escaped, escaped_byte, quoted, key_text, trillionths_text, point_text, counts_text, head_text, box_text, IsFloatText, line_text, IsLine};

use crate::info::bounds::BoundingBox;
use crate::info::info::Info;
use itoa::Buffer;
use mesh_number::put_shifted;
use mesh_write::DecimalPoint;
use std::alloc::{AllocError, Global};

const HEX: &[u8] = b"0123456789abcdef";

// Appends a byte of a name. Control characters, quotes and backslashes are escaped.
fn put_byte(byte: u8, text: &mut Vec<u8>) -> Result<(), AllocError>
    ensures { OnOk result (text.new.items ≡ text.old.items ++ escaped_byte byte) }
{
    if byte == b'"' {
        return text.extend_from_slice(b"\\\"");
    }
    if byte == b'\\' {
        return text.extend_from_slice(b"\\\\");
    }
    if byte >= 32 {
        text.push(byte)?;
        return Ok(());
    }
    text.extend_from_slice(b"\\u00")?;
    text.push(HEX[(byte / 16) as usize])?;
    text.push(HEX[(byte % 16) as usize])?;
    Ok(())
}

fn put_escaped(name: &[u8], text: &mut Vec<u8>) -> Result<(), AllocError>
    ensures { OnOk result (text.new.items ≡ text.old.items ++ escaped name.now) }
{
    for byte in name {
        put_byte(*byte, text)?;
    }
    Ok(())
}

/// Appends a text between quotes, as a string of JSON. The text is UTF-8.
pub fn put_quoted(name: &[u8], text: &mut Vec<u8>) -> Result<(), AllocError>
    ensures { OnOk result (text.new.items ≡ text.old.items ++ quoted name.now) }
{
    text.push(b'"')?;
    put_escaped(name, text)?;
    text.push(b'"')?;
    Ok(())
}

// Appends a key after the value before it.
fn put_key(key: &[u8], text: &mut Vec<u8>) -> Result<(), AllocError>
    ensures { OnOk result (text.new.items ≡ text.old.items ++ key_text key.now) }
{
    text.extend_from_slice(b", ")?;
    put_quoted(key, text)?;
    text.extend_from_slice(b": ")
}

fn put_count(count: u128, text: &mut Vec<u8>) -> Result<(), AllocError>
    ensures { OnOk result (text.new.items ≡ text.old.items ++ decimal count) }
{
    let mut buffer = Buffer::new();
    text.extend_from_slice(buffer.format(count).as_bytes())
}

// Appends a number of trillionths, in the unit.
fn put_trillionths(number: i128, text: &mut Vec<u8>) -> Result<(), AllocError>
    ensures { OnOk result (text.new.items ≡ text.old.items ++ trillionths_text number) }
{
    put_shifted(number < 0, number.unsigned_abs(), 12, text)
}

fn put_point(point: &DecimalPoint, text: &mut Vec<u8>) -> Result<(), AllocError>
    ensures { OnOk result (text.new.items ≡ text.old.items ++ point_text point.now) }
{
    text.push(b'[')?;
    put_trillionths(point.x, text)?;
    text.extend_from_slice(b", ")?;
    put_trillionths(point.y, text)?;
    text.extend_from_slice(b", ")?;
    put_trillionths(point.z, text)?;
    text.push(b']')?;
    Ok(())
}

// A float as a number of JSON, from which it can be read back. What is no number is null.
fn float_text(alloc: Global, float: f64) -> Result<String, AllocError>
    ensures { IfOk result (λ text. IsFloatText float (string_bytes text)) }
{
    if !float.is_finite() {
        return String::from_str(alloc, "null");
    }
    String::from_str(alloc, ryu::Buffer::new().format_finite(float))
}

fn put_counts(info: &Info, text: &mut Vec<u8>) -> Result<(), AllocError>
    ensures { OnOk result (text.new.items ≡ text.old.items ++ counts_text info.now) }
{
    put_key(b"triangles", text)?;
    put_count(u128::from(info.triangles), text)?;
    put_key(b"positions", text)?;
    put_count(u128::from(info.positions), text)?;
    put_key(b"loose edges", text)?;
    put_count(info.loose, text)?;
    put_key(b"edges of more than two triangles", text)?;
    put_count(u128::from(info.shared), text)
}

// Appends the beginning of the line, with the name.
fn put_head(name: &[u8], text: &mut Vec<u8>) -> Result<(), AllocError>
    ensures { OnOk result (text.new.items ≡ text.old.items ++ head_text name.now) }
{
    text.push(b'{')?;
    put_quoted(b"file", text)?;
    text.extend_from_slice(b": ")?;
    put_quoted(name, text)
}

fn put_box(bounds: &BoundingBox, text: &mut Vec<u8>) -> Result<(), AllocError>
    ensures { OnOk result (text.new.items ≡ text.old.items ++ box_text bounds.now) }
{
    put_key(b"from", text)?;
    put_point(&bounds.lower, text)?;
    put_key(b"to", text)?;
    put_point(&bounds.upper, text)
}

// Appends the line of JSON, in which the volume has this text.
fn put_line_with(
    name: &[u8],
    info: &Info,
    volume: &str,
    text: &mut Vec<u8>,
) -> Result<(), AllocError>
    ensures { OnOk result (text.new.items ≡ text.old.items ++ line_text name.now info.now volume.now) }
{
    put_head(name, text)?;
    put_counts(info, text)?;
    put_key(b"volume", text)?;
    text.extend_from_slice(volume.as_bytes())?;
    put_box(&info.bounds, text)?;
    text.extend_from_slice(b"}\n")
}

// Appends the line of JSON that says this of the mesh with this name.
pub(crate) fn put_line(
    alloc: Global,
    name: &[u8],
    info: &Info,
    text: &mut Vec<u8>,
) -> Result<(), AllocError>
    ensures { OnOk result ((line : List ℕ) × IsLine name.now info.now line ×
        (text.new.items ≡ text.old.items ++ line)) }
{
    let volume = float_text(alloc, info.volume)?;
    put_line_with(name, info, volume.as_str(), text)
}
