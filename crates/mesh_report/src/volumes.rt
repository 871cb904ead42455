// The volumes of the files' meshes.
ghost use Rattle.std.specs.Prelude.{◌≡◌, ℤ, ◌++◌, ◌+◌, ◌*◌, ◌<◌, ◌^◌, length, get_or, drop, OnOk};
ghost use Rattle.mesh_grid.specs.Snap.Steps.{IsStep};
ghost use Rattle.mesh_report.specs.Volumes.{cube, inside_out_text, plain_text, said_text, turned_text, volume_line, volume_lines, volume_text};

use crate::report::put_line;
use ember_model::OutOfMemory;
use ember_words::Text;
use mesh_grid::GridStep;
use mesh_number::{Magnitude, Wide, put_decimal};
use mesh_texts::{PLACES, put_count};
use std::alloc::Global;
use std::cmp::Ordering;

// 10^21: a volume of this size or more isn't shown.
const LIMIT: u128 = 1_000_000_000_000_000_000_000;

fn cube(number: u64) -> u128
    requires { number < 2 ^ 40 }
    ensures value { result ≡ cube number }
    ensures small { result < 2 ^ 120 }
{
    let number = u128::from(number);
    number * number * number
}

/// Appends a volume in cubes of the user's unit. Six times this volume is a number of cubes of the
/// step.
pub fn put_volume(
    sixfold_volume: i64,
    step: &GridStep,
    text: &mut Vec<u8>,
) -> Result<(), OutOfMemory>
    requires { IsStep step.now }
    ensures { OnOk result (text.new.items ≡ text.old.items ++ volume_text step.now sixfold_volume) }
{
    let numerator = cube(step.numerator);
    let denominator = cube(step.denominator);
    let count = u128::from(sixfold_volume.unsigned_abs());
    let size = Magnitude::product(count, numerator);
    let unit = 6 * denominator;
    let limit = Magnitude::product(unit, LIMIT);
    if size.compare(&limit) != Ordering::Less {
        return text.extend_from_slice(b"?");
    }
    let volume = Wide {
        negative: sixfold_volume < 0,
        size,
    };
    put_decimal(&volume, unit, PLACES, text)
}

// Appends the volume of a file.
fn put_plain(
    name: &[u8],
    sixfold_volume: i64,
    step: &GridStep,
    text: &mut Vec<u8>,
) -> Result<(), OutOfMemory>
    requires { IsStep step.now }
    ensures { OnOk result (text.new.items ≡ text.old.items ++ plain_text name.now step.now sixfold_volume) }
{
    text.extend_from_slice(name)?;
    text.extend_from_slice(b": volume ")?;
    put_volume(sixfold_volume, step, text)
}

/// Appends that a file may be inside out, and how it is used then. Files are numbered from 1.
pub fn put_turned(
    number: u64,
    name: &[u8],
    sixfold_volume: i64,
    step: &GridStep,
    text: &mut Vec<u8>,
) -> Result<(), OutOfMemory>
    requires { IsStep step.now }
    ensures { OnOk result (text.new.items ≡
        text.old.items ++ turned_text number name.now step.now sixfold_volume) }
{
    text.extend_from_slice(name)?;
    text.extend_from_slice(b": its volume is ")?;
    put_volume(sixfold_volume, step, text)?;
    text.extend_from_slice(b", so it may be inside out; use w")?;
    put_count(number, text)?;
    text.extend_from_slice(b"=-1")
}

// Appends the same as a warning.
fn put_inside_out(
    number: u64,
    name: &[u8],
    sixfold_volume: i64,
    step: &GridStep,
    text: &mut Vec<u8>,
) -> Result<(), OutOfMemory>
    requires { IsStep step.now }
    ensures { OnOk result (text.new.items ≡
        text.old.items ++ inside_out_text number name.now step.now sixfold_volume) }
{
    text.extend_from_slice(b"warning: ")?;
    put_turned(number, name, sixfold_volume, step, text)
}

// Appends what is said of the volume of a file.
fn put_said(
    number: u64,
    name: &[u8],
    sixfold_volume: i64,
    step: &GridStep,
    text: &mut Vec<u8>,
) -> Result<(), OutOfMemory>
    requires { IsStep step.now }
    ensures { OnOk result (text.new.items ≡
        text.old.items ++ said_text number name.now step.now sixfold_volume) }
{
    if sixfold_volume < 0 {
        put_inside_out(number, name, sixfold_volume, step, text)
    } else {
        put_plain(name, sixfold_volume, step, text)
    }
}

// Appends the line of a file's volume.
fn put_volume_line(
    alloc: Global,
    number: u64,
    name: &[u8],
    sixfold_volume: i64,
    step: &GridStep,
    text: &mut Vec<u8>,
) -> Result<(), OutOfMemory>
    requires { IsStep step.now }
    ensures { OnOk result (text.new.items ≡
        text.old.items ++ volume_line number name.now step.now sixfold_volume) }
{
    let mut said = Vec::new(alloc);
    put_said(number, name, sixfold_volume, step, &mut said)?;
    put_line(alloc, &said, text)
}

/// The volume with this index.
pub fn volume_at(sixfold_volumes: &[i64], index: usize) -> i64
    requires { index < length sixfold_volumes.now }
    ensures { (other : ℤ) → result ≡ get_or sixfold_volumes.now index other }
{
    sixfold_volumes[index]
}

/// Appends the line of each file's volume, which warns if the volume is below 0.
pub fn put_volumes(
    alloc: Global,
    names: &[Text],
    step: &GridStep,
    sixfold_volumes: &[i64],
    text: &mut Vec<u8>,
) -> Result<(), OutOfMemory>
    requires { IsStep step.now }
    ensures { OnOk result (text.new.items ≡
        text.old.items ++ volume_lines 1 names.now step.now sixfold_volumes.now) }
{
    let mut file = 0;
    for name in names {
        if file >= sixfold_volumes.len() {
            return Ok(());
        }
        let of_file = volume_at(sixfold_volumes, file);
        file += 1;
        let name = name.as_str().as_bytes();
        put_volume_line(alloc, file as u64, name, of_file, step, text)?;
    }
    Ok(())
}
