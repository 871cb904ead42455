// Steps as text.
ghost use Rattle.std.specs.Prelude.{◌≡◌, ◌⊎◌, ◌<◌, ◌^◌, nat_le, length, map, Ok, Err, IfOk, IfErr, IfSome, MatchOption, MatchResult, Some, None};
ghost use Rattle.std.specs.Option.{option_map};
ghost use Rattle.mesh_number.specs.Number.Values.{value_of};
ghost use Rattle.mesh_read.specs.Surface.Surfaces.{point_of};
ghost use Rattle.mesh_placing.specs.declared.words.TextFault.TheVariants as fault;
ghost use Rattle.mesh_placing.specs.Words.{said_by, behind, part_before, behind_head, three_said, factors_said, axis_said, angle_in};
ghost use Rattle.mesh_placing.specs.Words.{angle_said, with_turn, step_said, steps_said};

use mesh_number::{Number, floor_times, read_decimal};
use mesh_place::{Angle, Axis, Step};
use mesh_read::Vertex;
use std::alloc::{AllocError, AllocFailed, Global};
use thiserror::Error;

/// Why a text says no steps, or out-of-memory. Steps are counted from 0. The first fault counts.
#[derive(Clone, Copy, Debug, PartialEq, Eq, Error)]
pub enum TextFault {
    /// Out of memory.
    #[error("out of memory")]
    OutOfMemory,
    /// This step begins with none of `move=`, `scale=`, `turn=` and `mirror=`.
    #[error("step {0}: not move=, scale=, turn= or mirror=")]
    Unknown(usize),
    /// This move hasn't three decimals with commas between them, or this scale neither three nor one.
    #[error("step {0}: not the numbers that it takes")]
    NoNumbers(usize),
    /// The axis of this turn or this mirror is none of x, y and z.
    #[error("step {0}: not x, y or z")]
    NoAxis(usize),
    /// The angle of this turn is missing, or is no decimal of at most 12 places and below 10^15 in size.
    #[error("step {0}: not an angle in degrees, with at most 12 decimal places")]
    NoAngle(usize),
}

impl<T: Drop> From<AllocFailed<T>> for TextFault {
    ghost from_gives = { λ _ e. e ≡ fault.OutOfMemory };

    fn from(_error: AllocFailed<T>) -> TextFault {
        TextFault::OutOfMemory
    }
}

// Trillionths in a degree, and in a full turn.
pub(crate) const TRILLIONTHS: u64 = 1_000_000_000_000;

const FULL_TURN: i128 = 360_000_000_000_000;

// The most decimal places of an angle in degrees.
const MOST_PLACES: usize = 12;

// The text before the first byte of this kind, and what is behind that byte.
pub(crate) fn cut(text: &[u8], stop: u8) -> (&[u8], Option<&[u8]>)
    ensures before { result.0.now ≡ part_before stop text.now }
    ensures behind { MatchOption result.1 (behind stop text.now ≡ None) (λ rest. behind stop text.now ≡ Some rest.now) }
    ensures shorter { IfSome result.1 (λ rest. length rest.now < length text.now) }
{
    let mut end = 0;
    while end < text.len() && text[end] != stop {
        end += 1;
    }
    let (first, rest) = text.split_at(end);
    match rest.split_first() {
        Some((_, rest)) => (first, Some(rest)),
        None => (first, None),
    }
}

// The text behind this head, if it begins with it.
pub(crate) fn behind_head<'a>(text: &'a [u8], head: &[u8]) -> Option<&'a [u8]>
    ensures { MatchOption result (behind_head head.now text.now ≡ None)
        (λ rest. behind_head head.now text.now ≡ Some rest.now) }
{
    if text.starts_with(head) {
        Some(text.split_at(head.len()).1)
    } else {
        None
    }
}

// Three decimals with commas between them.
fn three_numbers(text: &[u8]) -> Option<Vertex<'_>>
    ensures { option_map point_of result ≡ three_said text.now }
{
    let (x, rest) = cut(text, b',');
    let (y, last) = cut(rest?, b',');
    let z = last?;
    Some(Vertex {
        x: read_decimal(x)?,
        y: read_decimal(y)?,
        z: read_decimal(z)?,
    })
}

// One factor for all coordinates, or three.
fn factors(text: &[u8]) -> Option<Vertex<'_>>
    ensures { option_map point_of result ≡ factors_said text.now }
{
    match read_decimal(text) {
        Some(s) => Some(Vertex { x: s, y: s, z: s }),
        None => three_numbers(text),
    }
}

fn read_axis(text: &[u8]) -> Option<Axis>
    ensures { result ≡ axis_said text.now }
{
    match text {
        [b'x'] => Some(Axis::X),
        [b'y'] => Some(Axis::Y),
        [b'z'] => Some(Axis::Z),
        _ => None,
    }
}

// Whether the power of ten is at most a trillion.
#[tactic(auto, using(crate::proofs::CoarsePowers::tens_fit, crate::proofs::CoarsePowers::tens_pass))]
fn is_coarse_ten(places: usize) -> bool
    ensures { result ≡ nat_le (10 ^ places) (10 ^ 12) }
{
    if places > MOST_PLACES {
        return false;
    }
    true
}

// Whether the power of two is at most a trillion.
#[tactic(auto, using(crate::proofs::CoarsePowers::twos_fit, crate::proofs::CoarsePowers::twos_pass))]
fn is_coarse_two(power: u16) -> bool
    ensures { result ≡ nat_le (2 ^ power) (10 ^ 12) }
{
    if power >= 40 {
        return false;
    }
    true
}

// Whether the number has at most twelve decimal places.
pub(crate) fn is_coarse(number: &Number) -> bool
    ensures { result ≡ nat_le (value_of number.now).denominator (10 ^ 12) }
{
    match number {
        Number::Decimal(d) if d.exponent.minus => {
            is_coarse_ten(d.fraction.len() + usize::from(d.exponent.size))
        }
        Number::Decimal(d) => is_coarse_ten(d.fraction.len()),
        Number::Binary(b) => is_coarse_two(b.scale),
    }
}

// An angle in degrees.
fn read_angle(degrees: &Number) -> Option<Angle>
    ensures { option_map (λ angle. angle.trillionths) result ≡ angle_in (value_of degrees.now) }
{
    if !is_coarse(degrees) {
        return None;
    }
    let trillionths = floor_times(degrees, TRILLIONTHS)?;
    Some(Angle {
        trillionths: trillionths.rem_euclid(FULL_TURN) as u64,
    })
}

// A turn, by its axis and its angle.
fn read_turn(number: usize, text: &[u8]) -> Result<Step<'_>, TextFault>
    ensures { MatchResult result
        (λ s. with_turn number (axis_said (part_before 44 text.now)) (angle_said (behind 44 text.now)) ≡ Ok (said_by s))
        (λ e. with_turn number (axis_said (part_before 44 text.now)) (angle_said (behind 44 text.now)) ≡ Err e) }
{
    let (name, degrees) = cut(text, b',');
    let Some(axis) = read_axis(name) else {
        return Err(TextFault::NoAxis(number));
    };
    let Some(degrees) = degrees else {
        return Err(TextFault::NoAngle(number));
    };
    let Some(degrees) = read_decimal(degrees) else {
        return Err(TextFault::NoAngle(number));
    };
    match read_angle(&degrees) {
        Some(angle) => Ok(Step::Turn(axis, angle)),
        None => Err(TextFault::NoAngle(number)),
    }
}

// The step with this number.
#[tactic(auto, unfolding(crate::specs::Words::step_said))]
fn read_step(number: usize, text: &[u8]) -> Result<Step<'_>, TextFault>
    ensures { MatchResult result (λ s. step_said number text.now ≡ Ok (said_by s))
        (λ e. step_said number text.now ≡ Err e) }
{
    if let Some(value) = behind_head(text, b"move=") {
        return match three_numbers(value) {
            Some(by) => Ok(Step::Move(by)),
            None => Err(TextFault::NoNumbers(number)),
        };
    }
    if let Some(value) = behind_head(text, b"scale=") {
        return match factors(value) {
            Some(by) => Ok(Step::Scale(by)),
            None => Err(TextFault::NoNumbers(number)),
        };
    }
    if let Some(value) = behind_head(text, b"turn=") {
        return read_turn(number, value);
    }
    let Some(value) = behind_head(text, b"mirror=") else {
        return Err(TextFault::Unknown(number));
    };
    match read_axis(value) {
        Some(axis) => Ok(Step::Mirror(axis)),
        None => Err(TextFault::NoAxis(number)),
    }
}

/// The steps that a text says, with semicolons between them, or the first fault.
///
/// A step is `move=X,Y,Z`, `scale=S`, `scale=X,Y,Z`, `turn=AXIS,DEGREES` or `mirror=AXIS`. An axis is
/// `x`, `y` or `z`, and a number is a decimal as in mesh files. Nothing is blank between them.
pub fn read_steps<'a>(alloc: Global, text: &'a [u8]) -> Result<Vec<Step<'a>>, TextFault>
    ensures ok { IfOk result (λ steps. steps_said text.now ≡ Ok (map said_by steps.items)) }
    ensures fault { IfErr result (λ e. (e ≡ TextFault.OutOfMemory) ⊎ (steps_said text.now ≡ Err e)) }
{
    let mut steps = Vec::new(alloc);
    let mut rest = text;
    loop {
        let (first, others) = cut(rest, b';');
        let number = steps.len();
        let step = match read_step(number, first) {
            Ok(step) => step,
            Err(fault) => return Err(fault),
        };
        steps.push(step)?;
        match others {
            Some(others) => rest = others,
            None => return Ok(steps),
        }
    }
}
