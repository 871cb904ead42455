// Pieces of lines.
ghost use Rattle.std.specs.Prelude.{◌≡◌, ◌++◌, ◌<◌, ◌≤◌, ◌^◌, decimal, IfOk, OnOk};
ghost use Rattle.std.specs.Fmt.{signed_decimal};
ghost use Rattle.mesh_grid.specs.Moves.Shown.{rounded_of};
ghost use Rattle.mesh_grid.specs.Snap.Steps.{IsStep};
ghost use Rattle.mesh_written.specs.Places.{place_of};
ghost use Rattle.mesh_texts.specs.Texts.{IsOneLine, corner_text, length_text, line, move_text, name_of, shown, size_text, step_text, still_text, visible, visible_byte, wanted_text};

use ember_model::{Axis, Corner, OutOfMemory};
use ember_words::Texts;
use itoa::Buffer;
use mesh_grid::{Grid, GridStep, Length, SceneExtent};
use mesh_number::{Magnitude, Wide, put_decimal};
use mesh_point::{SpacePoint, whole_point};
use mesh_words::WantedStep;
use mesh_written::{PlaceFault, put_place};
use std::alloc::{AllocError, Global};

// Numbers of the user's unit are shown with at most this many places.
pub const PLACES: u32 = 12;

/// The name of file `number`, from 1. As in the definition, 0 counts as 1, and a number past the
/// last file gives an empty name.
pub fn name_among(files: &Texts, number: u32) -> &[u8]
    ensures { result.now ≡ name_of files.now number }
{
    match files.items().get((number as usize).saturating_sub(1)) {
        Some(name) => name.as_str().as_bytes(),
        None => &[],
    }
}

/// The value of `--step`.
pub fn wanted_text(step: &WantedStep) -> &[u8]
    ensures { result.now ≡ wanted_text step.now }
{
    match step {
        WantedStep::Nice => b"nice",
        WantedStep::Finest => b"finest",
        WantedStep::Decimal(text) => text.as_str().as_bytes(),
    }
}

// The byte, or a question mark in place of a control character.
fn visible_byte(byte: u8) -> u8
    ensures { result ≡ visible_byte byte }
{
    if byte.is_ascii_control() { b'?' } else { byte }
}

// Appends the text with a question mark in place of each control character.
fn put_visible(said: &[u8], text: &mut Vec<u8>) -> Result<(), OutOfMemory>
    ensures { OnOk result (text.new.items ≡ text.old.items ++ visible said.now) }
{
    for byte in said {
        text.push(visible_byte(*byte))?;
    }
    Ok(())
}

// A line of the program with this text.
fn line_text(alloc: Global, why: &[u8]) -> Result<Vec<u8>, OutOfMemory>
    ensures { IfOk result (λ text. text.items ≡ line why.now) }
{
    let mut text = Vec::from_slice(alloc, b"ember-mesh: ")?;
    put_visible(why, &mut text)?;
    text.extend_from_slice(b"\n")?;
    Ok(text)
}

/// A line of the program with this text. Names may have line feeds and escapes in them, so each control
/// character of ASCII is shown as a question mark: it is one line, whatever it names.
pub fn line(alloc: Global, why: &[u8]) -> Result<Vec<u8>, OutOfMemory>
    ensures text { IfOk result (λ text. text.items ≡ line why.now) }
    ensures single { IfOk result (λ text. IsOneLine text.items) }
{
    line_text(alloc, why)
}

/// Appends a count in decimal digits.
pub fn put_count(count: u64, text: &mut Vec<u8>) -> Result<(), OutOfMemory>
    ensures { OnOk result (text.new.items ≡ text.old.items ++ decimal count) }
{
    let mut buffer = Buffer::new();
    text.extend_from_slice(buffer.format(count).as_bytes())
}

/// Appends a number in decimal digits, with a minus sign before them if it is below 0.
pub fn put_signed(number: i128, text: &mut Vec<u8>) -> Result<(), OutOfMemory>
    ensures { OnOk result (text.new.items ≡ text.old.items ++ signed_decimal number) }
{
    let mut buffer = Buffer::new();
    text.extend_from_slice(buffer.format(number).as_bytes())
}

/// Appends a step in the user's unit.
pub fn put_step(step: &GridStep, text: &mut Vec<u8>) -> Result<(), OutOfMemory>
    requires { 0 < step.now.denominator }
    ensures { OnOk result (text.new.items ≡ text.old.items ++ step_text step.now) }
{
    let numerator = Wide::product(i128::from(step.numerator), 1);
    put_decimal(&numerator, u128::from(step.denominator), PLACES, text)
}

/// Appends how long a scene is, in the user's unit.
pub fn put_length(extent: &SceneExtent, text: &mut Vec<u8>) -> Result<(), OutOfMemory>
    ensures { OnOk result (text.new.items ≡ text.old.items ++ length_text extent.now) }
{
    let size = Magnitude::product(extent.trillionths, 1);
    let numerator = Wide {
        negative: false,
        size,
    };
    put_decimal(&numerator, 1_000_000_000_000, PLACES, text)
}

/// Appends the size divided by 10 to the power of `places`.
pub fn put_size(size: u128, places: u32, text: &mut Vec<u8>) -> Result<(), OutOfMemory>
    requires size { size < 2 ^ 127 }
    requires places { places ≤ 12 }
    ensures { OnOk result (text.new.items ≡ text.old.items ++ size_text size places) }
{
    let unit = u128::from(10u64.pow(places));
    let product = Magnitude::product(size, 1);
    let numerator = Wide {
        negative: false,
        size: product,
    };
    put_decimal(&numerator, unit, places, text)
}

// What is said of a move of 0.
fn still_text(size: u128) -> &'static [u8]
    ensures { result.now ≡ still_text size }
{
    if size == 0 { b" (nothing moved)" } else { b"" }
}

/// Appends how far corners move at most, in the user's unit.
pub fn put_move(moved: &Length, text: &mut Vec<u8>) -> Result<(), OutOfMemory>
    ensures { OnOk result (text.new.items ≡ text.old.items ++ move_text (rounded_of moved.now)) }
{
    put_size(moved.size, moved.places, text)?;
    text.extend_from_slice(still_text(moved.size))
}

// Appends where a point lies along an axis, in the user's unit.
fn put_shown(
    point: &SpacePoint,
    axis: Axis,
    grid: &Grid,
    text: &mut Vec<u8>,
) -> Result<(), OutOfMemory>
    requires { IsStep grid.now.step }
    ensures { OnOk result (text.new.items ≡
        text.old.items ++ shown (place_of grid.now.step grid.now.offset axis point.now)) }
{
    match put_place(point, axis, &grid.step, &grid.offset, PLACES, text) {
        Ok(()) => Ok(()),
        Err(PlaceFault::TooFar) => text.extend_from_slice(b"?"),
        Err(PlaceFault::OutOfMemory) => Err(AllocError),
    }
}

/// Appends a corner of the grid in the user's unit.
pub fn put_corner(corner: &Corner, grid: &Grid, text: &mut Vec<u8>) -> Result<(), OutOfMemory>
    requires { IsStep grid.now.step }
    ensures { OnOk result (text.new.items ≡ text.old.items ++ corner_text grid.now corner.now) }
{
    let point = whole_point(corner);
    text.extend_from_slice(b"(")?;
    put_shown(&point, Axis::X, grid, text)?;
    text.extend_from_slice(b" ")?;
    put_shown(&point, Axis::Y, grid, text)?;
    text.extend_from_slice(b" ")?;
    put_shown(&point, Axis::Z, grid, text)?;
    text.extend_from_slice(b")")
}

/// Appends a word, its value, and what is said of it.
pub fn put_value(
    option: &[u8],
    value: &[u8],
    said: &[u8],
    text: &mut Vec<u8>,
) -> Result<(), OutOfMemory>
    ensures { OnOk result (text.new.items ≡ text.old.items ++ (option.now ++ (value.now ++ said.now))) }
{
    text.extend_from_slice(option)?;
    text.extend_from_slice(value)?;
    text.extend_from_slice(said)
}
