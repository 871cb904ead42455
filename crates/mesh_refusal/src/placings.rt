// Why a file isn't placed.
ghost use Rattle.std.specs.Prelude.{◌≡◌, ◌++◌, codes, decimal, OnOk, IfOk, string_bytes};
ghost use Rattle.mesh_refusal.specs.Placings.{from_one, step_text, said_text, place_text, steps_reason, image_reason};

use ember_model::OutOfMemory;
use itoa::Buffer;
use mesh_place::StepsFault;
use mesh_placing::{ImageFault, PlaceFault, TextFault};
use mesh_read::Flaw;
use mesh_texts::put_count;
use std::alloc::{AllocError, Global};

const UNKNOWN: &[u8] = b"not move=, scale=, turn= or mirror=";

const NO_NUMBERS: &[u8] = b"not the numbers that it takes";

const NO_AXIS: &[u8] = b"not x, y or z";

const NO_ANGLE: &[u8] = b"not an angle in degrees, with at most 12 decimal places";

const NO_FILE: &[u8] = b"not FILE:STEPS with the number of a file";

const LONG_NUMBER: &str = ": a number is too long; give fewer digits";

const MANY_PLACES: &str = ": too many decimal places; give fewer digits";

const FLAT: &str = ": it makes the mesh flat; give another factor";

const LONG_VERTEX: &str = ": a number is too long; export anew";

const TOO_LARGE: &str = ": a coordinate of 1e15 or more where it is placed; move it less far";

const NO_TRIANGLES: &str = "no triangles in it; is it a mesh?";

const OUT_OF_MEMORY: &str = "out of memory";

// The number from 1 of what has this number from 0.
fn from_one(number: usize) -> u64
    ensures { result ≡ from_one number }
{
    (number as u64).saturating_add(1)
}

// Appends what is wrong with a step, by its number from 0.
fn put_step(number: usize, why: &[u8], text: &mut Vec<u8>) -> Result<(), OutOfMemory>
    ensures { OnOk result (text.new.items ≡ text.old.items ++ step_text number why.now) }
{
    text.extend_from_slice(b"step ")?;
    put_count(from_one(number), text)?;
    text.extend_from_slice(b": ")?;
    text.extend_from_slice(why)
}

// Appends why a text says no steps.
fn put_said(fault: &TextFault, text: &mut Vec<u8>) -> Result<(), OutOfMemory>
    ensures { OnOk result (text.new.items ≡ text.old.items ++ said_text fault.now) }
{
    match fault {
        TextFault::Unknown(number) => put_step(*number, UNKNOWN, text),
        TextFault::NoNumbers(number) => put_step(*number, NO_NUMBERS, text),
        TextFault::NoAxis(number) => put_step(*number, NO_AXIS, text),
        TextFault::NoAngle(number) => put_step(*number, NO_ANGLE, text),
        TextFault::OutOfMemory => text.extend_from_slice(OUT_OF_MEMORY.as_bytes()),
    }
}

/// Appends why a text says no placing of a file.
pub fn put_place(fault: &PlaceFault, text: &mut Vec<u8>) -> Result<(), OutOfMemory>
    ensures { OnOk result (text.new.items ≡ text.old.items ++ place_text fault.now) }
{
    match fault {
        PlaceFault::NoFile => text.extend_from_slice(NO_FILE),
        PlaceFault::Steps(file, fault) => {
            text.extend_from_slice(b"file ")?;
            put_count(u64::from(*file), text)?;
            text.extend_from_slice(b", ")?;
            put_said(fault, text)
        }
    }
}

// A number between two texts.
fn numbered(alloc: Global, before: &str, number: u64, behind: &str) -> Result<String, AllocError>
    ensures { IfOk result (λ text. string_bytes text ≡ before.now ++ (decimal number ++ behind.now)) }
{
    let mut buffer = Buffer::new();
    let mut text = String::from_str(alloc, before)?;
    text.push_str(buffer.format(number))?;
    text.push_str(behind)?;
    Ok(text)
}

// Why steps have no map.
fn steps_reason(alloc: Global, fault: &StepsFault) -> Result<String, AllocError>
    ensures { IfOk result (λ reason. string_bytes reason ≡ steps_reason fault.now) }
{
    match fault {
        StepsFault::TooLong(step) => {
            numbered(alloc, "--place: step ", from_one(*step), LONG_NUMBER)
        }
        StepsFault::TooFine(step) => {
            numbered(alloc, "--place: step ", from_one(*step), MANY_PLACES)
        }
        StepsFault::Flat(step) => numbered(alloc, "--place: step ", from_one(*step), FLAT),
        StepsFault::OutOfMemory => String::from_str(alloc, OUT_OF_MEMORY),
    }
}

/// Why a file is no mesh where it is placed.
pub fn image_reason(alloc: Global, fault: &ImageFault) -> Result<String, AllocError>
    ensures { IfOk result (λ reason. string_bytes reason ≡ image_reason fault.now) }
{
    match fault {
        ImageFault::Steps(fault) => steps_reason(alloc, fault),
        ImageFault::LongVertex(vertex) => {
            numbered(alloc, "--place: vertex ", from_one(*vertex), LONG_VERTEX)
        }
        ImageFault::Flaw(Flaw::TooLarge(place)) => {
            numbered(alloc, "--place: triangle ", u64::from(*place), TOO_LARGE)
        }
        ImageFault::Flaw(Flaw::NoTriangles) => String::from_str(alloc, NO_TRIANGLES),
        ImageFault::OutOfMemory => String::from_str(alloc, OUT_OF_MEMORY),
    }
}
