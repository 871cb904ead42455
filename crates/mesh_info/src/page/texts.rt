// Texts that a page is made of.
ghost use Rattle.std.specs.Prelude.{◌≡◌, ◌++◌, flat_map, map, string_bytes, Ok, IfOk, OnOk};
ghost use Rattle.base64.specs.Engines.{standard};
ghost use Rattle.base64.specs.GeneralPurpose.{decode_of};
ghost use Rattle.mesh_write.specs.Glb.Written.{corner_bytes};
ghost use Rattle.mesh_info.specs.Page.Pages.{escaped, escaped_byte, file_byte, files_text, item_text, numbers_text};

use base64::engine::general_purpose::STANDARD;
use ember_words::Text;
use mesh_write::{FloatTriangle, put_all_corners};
use std::alloc::{AllocError, Global};

// Appends a byte of a text, spelled so that it can't begin or end a tag.
fn put_escaped_byte(byte: u8, out: &mut Vec<u8>) -> Result<(), AllocError>
    ensures { OnOk result (out.new.items ≡ out.old.items ++ escaped_byte byte) }
{
    match byte {
        b'&' => out.extend_from_slice(b"&amp;"),
        b'<' => out.extend_from_slice(b"&lt;"),
        b'>' => out.extend_from_slice(b"&gt;"),
        _ => out.extend_from_slice(&[byte]),
    }
}

pub(crate) fn put_escaped(text: &[u8], out: &mut Vec<u8>) -> Result<(), AllocError>
    ensures { OnOk result (out.new.items ≡ out.old.items ++ escaped text.now) }
{
    for byte in text {
        put_escaped_byte(*byte, out)?;
    }
    Ok(())
}

fn put_item(name: &Text, out: &mut Vec<u8>) -> Result<(), AllocError>
    ensures { OnOk result (out.new.items ≡ out.old.items ++ item_text name.now) }
{
    out.extend_from_slice(b"<li>")?;
    put_escaped(name.as_str().as_bytes(), out)?;
    out.extend_from_slice(b"</li>")
}

// Appends each name as an item of a list.
pub(crate) fn put_items(names: &[Text], out: &mut Vec<u8>) -> Result<(), AllocError>
    ensures { OnOk result (out.new.items ≡ out.old.items ++ flat_map item_text names.now) }
{
    for name in names {
        put_item(name, out)?;
    }
    Ok(())
}

// The corners of the triangles, as numbers in base64.
pub(crate) fn numbers_text(alloc: Global, triangles: &[FloatTriangle]) -> Result<String, AllocError>
    ensures text { IfOk result (λ text. string_bytes text ≡ numbers_text triangles.now) }
    ensures decoded { IfOk result (λ text.
        decode_of standard (string_bytes text) ≡ Ok (flat_map corner_bytes triangles.now)) }
{
    let mut numbers = Vec::new(alloc);
    put_all_corners(triangles, &mut numbers)?;
    STANDARD.encode(alloc, &numbers)
}

// The number of a file as a byte; 0 if it doesn't fit.
fn file_byte(number: usize) -> u8
    ensures { result ≡ file_byte number }
{
    if number < 256 { number as u8 } else { 0 }
}

fn file_bytes(alloc: Global, files: &[usize]) -> Result<Vec<u8>, AllocError>
    ensures { IfOk result (λ bytes. bytes.items ≡ map file_byte files.now) }
{
    let mut bytes = Vec::with_capacity(alloc, files.len())?;
    for file in files {
        bytes.push(file_byte(*file))?;
    }
    Ok(bytes)
}

// The numbers of files, in base64.
pub(crate) fn files_text(alloc: Global, files: &[usize]) -> Result<String, AllocError>
    ensures text { IfOk result (λ text. string_bytes text ≡ files_text files.now) }
    ensures decoded { IfOk result (λ text. decode_of standard (string_bytes text) ≡ Ok (map file_byte files.now)) }
{
    let bytes = file_bytes(alloc, files)?;
    STANDARD.encode(alloc, &bytes)
}
