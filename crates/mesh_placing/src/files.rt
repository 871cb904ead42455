// The files that words place.
ghost use Rattle.std.specs.Prelude.{◌≡◌, ◌≤◌, is_some, IfOk, IfErr, None, option_map};
ghost use Rattle.std.specs.List.{list_all};
ghost use Rattle.mesh_placing.specs.Files.{file_said, place_said, place_fault, first_place_fault, steps_if, place_of, is_turned};
ghost use Rattle.mesh_placing.specs.Files.{IsPlacingOf, ArePlacingsOf};

use crate::words::{TextFault, cut, read_steps};
use ember_words::Text;
use mesh_number::number_below;
use mesh_place::Step;
use std::alloc::{AllocError, Global};
use thiserror::Error;

/// How a file is placed: its surface is turned inside out, if that is asked for, and then these steps
/// are applied, one after another.
#[derive(Drop)]
pub struct Placing<'a> {
    pub steps: Vec<Step<'a>>,
    pub is_turned: bool,
}

/// Why a text says no placing of a file.
#[derive(Clone, Copy, Debug, PartialEq, Eq, Error)]
pub enum PlaceFault {
    /// It doesn't begin with the number of a file, from 1, and a colon.
    #[error("not FILE:STEPS with the number of a file")]
    NoFile,
    /// The steps of the file with this number, from 1, have this first fault.
    #[error("file {0}: {1}")]
    Steps(u32, TextFault),
}

// The number, from 1, of one of so many files.
fn file_said(files: u32, text: &[u8]) -> Option<u32>
    requires { files ≤ 64 }
    ensures { result ≡ file_said files text.now }
{
    match number_below(files + 1, text) {
        Some(0) => None,
        Some(number) => Some(number),
        None => None,
    }
}

// The number of one of so many files, and the text of its steps.
fn place_said(files: u32, text: &[u8]) -> Option<(u32, &[u8])>
    requires { files ≤ 64 }
    ensures { option_map (λ place. (place.0, place.1.now)) result ≡ place_said files text.now }
{
    let (number, steps) = cut(text, b':');
    let number = file_said(files, number)?;
    let steps = steps?;
    Some((number, steps))
}

// Why the text says no placing, if it says none.
fn place_fault(alloc: Global, files: u32, text: &[u8]) -> Result<Option<PlaceFault>, AllocError>
    requires { files ≤ 64 }
    ensures { IfOk result (λ fault. fault ≡ place_fault files text.now) }
{
    let Some((number, steps)) = place_said(files, text) else {
        return Ok(Some(PlaceFault::NoFile));
    };
    match read_steps(alloc, steps) {
        Ok(_) => Ok(None),
        Err(TextFault::OutOfMemory) => Err(AllocError),
        Err(fault) => Ok(Some(PlaceFault::Steps(number, fault))),
    }
}

/// Why the first of the texts that says no placing of one of so many files says none.
pub fn first_place_fault(
    alloc: Global,
    files: u32,
    places: &[Text],
) -> Result<Option<PlaceFault>, AllocError>
    requires { files ≤ 64 }
    ensures { IfOk result (λ fault. fault ≡ first_place_fault files places.now) }
{
    for place in places {
        if let Some(fault) = place_fault(alloc, files, place.as_str().as_bytes())? {
            return Ok(Some(fault));
        }
    }
    Ok(None)
}

/// Whether each of the texts is the number of one of so many files, from 1.
pub fn are_files(files: u32, turns: &[Text]) -> bool
    requires { files ≤ 64 }
    ensures { result ≡ list_all (λ turn. is_some (file_said files turn)) turns.now }
{
    for turn in turns {
        if file_said(files, turn.as_str().as_bytes()).is_none() {
            return false;
        }
    }
    true
}

// The text of the steps, if the place is one of the file with this number.
fn steps_if(files: u32, number: u32, place: &Text) -> Option<&[u8]>
    requires { files ≤ 64 }
    ensures { option_map (λ steps. steps.now) result ≡ steps_if number (place_said files place.now) }
{
    let (file, steps) = place_said(files, place.as_str().as_bytes())?;
    if file == number { Some(steps) } else { None }
}

// The text of the steps of the file with this number: the last one counts.
#[tactic(auto, using(crate::proofs::LastPlaces::later_place))]
fn place_of(files: u32, number: u32, places: &[Text]) -> Option<&[u8]>
    requires { files ≤ 64 }
    ensures { option_map (λ steps. steps.now) result ≡ place_of files number places.now }
{
    let mut steps = None;
    for place in places {
        if let Some(text) = steps_if(files, number, place) {
            steps = Some(text);
        }
    }
    steps
}

// Whether one of the texts is this number of one of so many files.
fn is_turned(files: u32, number: u32, turns: &[Text]) -> bool
    requires { files ≤ 64 }
    ensures { result ≡ is_turned files number turns.now }
{
    for turn in turns {
        if let Some(file) = file_said(files, turn.as_str().as_bytes()) {
            if file == number {
                return true;
            }
        }
    }
    false
}

// The placing of the file with this number, if it is placed or turned.
fn placing_of<'a>(
    alloc: Global,
    files: u32,
    number: u32,
    places: &'a [Text],
    turns: &[Text],
) -> Result<Option<Placing<'a>>, TextFault>
    requires few { files ≤ 64 }
    requires said { first_place_fault files places.now ≡ None }
    ensures placing { IfOk result (IsPlacingOf files places.now turns.now number) }
    ensures memory { IfErr result (λ e. e ≡ TextFault.OutOfMemory) }
{
    let is_turned = is_turned(files, number, turns);
    match place_of(files, number, places) {
        Some(text) => match read_steps(alloc, text) {
            Ok(steps) => Ok(Some(Placing { steps, is_turned })),
            Err(fault) => Err(fault),
        },
        None => {
            if !is_turned {
                return Ok(None);
            }
            Ok(Some(Placing {
                steps: Vec::new(alloc),
                is_turned,
            }))
        }
    }
}

/// The placing of each of so many files, in order; none at all if there are no texts. A file has the
/// steps of the last of `places` that begins with its number, and is turned inside out if one of
/// `turns` is its number. The only error is out-of-memory.
pub fn placings_of<'a>(
    alloc: Global,
    files: u32,
    places: &'a [Text],
    turns: &[Text],
) -> Result<Vec<Option<Placing<'a>>>, TextFault>
    requires few { files ≤ 64 }
    requires said { first_place_fault files places.now ≡ None }
    ensures placings { IfOk result (λ placings. ArePlacingsOf files places.now turns.now placings.items) }
    ensures memory { IfErr result (λ e. e ≡ TextFault.OutOfMemory) }
{
    let mut placings = Vec::new(alloc);
    if places.is_empty() && turns.is_empty() {
        return Ok(placings);
    }
    for index in 0..files {
        placings.push(placing_of(alloc, files, index + 1, places, turns)?)?;
    }
    Ok(placings)
}
