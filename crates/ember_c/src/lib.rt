//! The library for C: what `include/ember.h` declares. Each export is a call of ember_call or of ember_arrays
//! whose vectors become blocks that the caller frees.
#![tactic(auto)]

mod answer;
mod blocks;
#[cfg(test)]
mod sizes;
mod solid;
mod step;

ghost use Rattle.std.specs.Prelude.{◌≡◌, ◌++◌, length, min, take, drop};
ghost use Rattle.ember_c.specs.Answers.{AnswersCall, AnswersMeshCall};
ghost use Rattle.ember_c.specs.Solids.{AnswersArrays, digits_of, wants_sources};
ghost use Rattle.ember_call.specs.Lent.{named_bytes, word_bytes};

use crate::answer::{Answer, answer_of};
use crate::solid::{Solid, nothing_made, solid_of};
use crate::step::{StepFault, step_in};
use ember_arrays::{ArrayRequest, boolean};
use ember_call::{Lent, LentFile, command, mesh_command};
use mesh_arrays::ArrayMesh;
use std::alloc::Global;

/// `EMBER_ABI` of the header.
const ABI: u32 = 1;

/// The statuses of a step that isn't text, and of want of memory for it.
const NO_TEXT: u32 = 13;

const NO_MEMORY: u32 = 12;

/// The version of the programs.
const VERSION: &[u8] = b"0.3.0";

/// Does what `ember-mesh WORDS..` does in a folder with these files, and returns the status.
#[unsafe(no_mangle)]
pub extern "C" fn ember_mesh_command(
    alloc: Global,
    words: &[Lent],
    files: &[LentFile],
    answer: &mut Answer,
) -> u32
    ensures status { result ≡ answer.new.status }
    ensures answer { AnswersMeshCall (word_bytes words.now) (named_bytes files.now) answer.new }
{
    *answer = answer_of(alloc, mesh_command(alloc, words, files));
    answer.status
}

/// Does what `ember WORDS..` does in a folder with these files, and returns the status.
#[unsafe(no_mangle)]
pub extern "C" fn ember_command(
    alloc: Global,
    words: &[Lent],
    files: &[LentFile],
    answer: &mut Answer,
) -> u32
    ensures status { result ≡ answer.new.status }
    ensures answer { AnswersCall (word_bytes words.now) (named_bytes files.now) answer.new }
{
    *answer = answer_of(alloc, command(alloc, words, files));
    answer.status
}

/// `EMBER_DIGITS` of the header: the step decides how many decimal places there are.
const DIGITS_OF_STEP: u32 = u32::MAX;

// The decimal places of this number, if it is one of them.
fn digits_in(digits: u32) -> Option<u32>
    ensures { result ≡ digits_of digits }
{
    if digits == DIGITS_OF_STEP {
        None
    } else {
        Some(digits)
    }
}

// Whether these wants have `EMBER_SOURCES` of the header, their lowest bit.
fn wants_sources(wants: u32) -> bool
    ensures { result ≡ wants_sources wants }
{
    wants % 2 == 1
}

// The solid of an expression over meshes in arrays, as C gets it.
fn made_solid(
    alloc: Global,
    meshes: &[ArrayMesh],
    expression: &[u8],
    step: &[u8],
    digits: u32,
    wants: u32,
) -> Solid
    ensures { AnswersArrays meshes.now expression.now step.now digits wants result }
{
    let request = ArrayRequest {
        meshes,
        expression,
        digits: digits_in(digits),
        wants_sources: wants_sources(wants),
    };
    match step_in(alloc, step) {
        Ok(step) => solid_of(boolean(alloc, &request, step)),
        Err(StepFault::NotUtf8) => nothing_made(NO_TEXT),
        Err(StepFault::OutOfMemory) => nothing_made(NO_MEMORY),
    }
}

/// Makes the solid of an expression over meshes in arrays, and returns the status. `step` is `nice`, `finest` or
/// a decimal above 0; if it is empty, it stands for `nice`. If `wants` is odd, the solid has sources.
#[unsafe(no_mangle)]
pub extern "C" fn ember_boolean_with(
    alloc: Global,
    meshes: &[ArrayMesh],
    expression: &[u8],
    step: &[u8],
    digits: u32,
    wants: u32,
    solid: &mut Solid,
) -> u32
    ensures status { result ≡ solid.new.status }
    ensures answer { AnswersArrays meshes.now expression.now step.now digits wants solid.new }
{
    *solid = made_solid(alloc, meshes, expression, step, digits, wants);
    solid.status
}

/// The version of the interface.
#[unsafe(no_mangle)]
pub extern "C" fn ember_abi() -> u32
    ensures { result ≡ 1 }
{
    ABI
}

/// Writes as much of the version as there is room for, and returns its length.
#[unsafe(no_mangle)]
pub extern "C" fn ember_version(to: &mut [u8]) -> u32
    ensures length { result ≡ length VERSION.now }
    ensures text { let n = min (length to.old) (length VERSION.now) in
        to.new ≡ take n VERSION.now ++ drop n to.old }
{
    let count = to.len().min(VERSION.len());
    to[..count].copy_from_slice(VERSION.split_at(count).0);
    VERSION.len() as u32
}
