//! Reads decimal digits and decimal coordinates.
#![tactic(auto)]

ghost use Rattle.std.specs.Prelude.{◌≡◌, ◌≤◌, min, true, drop, take, replicate, ◌==◌};
ghost use Rattle.std.specs.List.{list_all};
ghost use Rattle.std.specs.Char.{is_ascii_digit};
ghost use Rattle.ember_dec.specs.Digits.{number_from};
ghost use Rattle.ember_dec.specs.Decimal.{before_point, behind_point, units, value_in_units, coordinate_of};

mod digits;

pub use digits::{append_digits, are_digits, split_digits};
use thiserror::Error;

/// Why a text is no coordinate, numbered from 1 in the order in which the faults are looked for.
/// The program doesn't print these texts, but its own: see `src/lines.rt` of ember_verdict.
#[derive(Clone, Copy, Debug, PartialEq, Eq, Error)]
pub enum DecFault {
    /// It isn't a sign, if there is one, and digits with at most one point among them.
    #[error("malformed")]
    Malformed = 1,
    /// A digit past the places isn't 0.
    #[error("fraction")]
    Fraction,
    /// It is more than 2047 units in size.
    #[error("range")]
    Range,
}

// The least size that is out of range.
const LIMIT: u64 = 2048;

// Whether all bytes are the digit 0.
fn are_zeros(text: &[u8]) -> bool
    ensures { result ≡ list_all (λ b. b == 48) text.now }
{
    text.iter().all(|b| *b == b'0')
}

// `start` followed by this many zeros, as a number, or the limit if the number is above it.
fn append_zeros(start: u64, count: usize) -> u64
    requires { start ≤ LIMIT }
    ensures value { result ≡ min LIMIT (number_from start (replicate count 48)) }
    ensures small { result ≤ LIMIT }
{
    let mut value = start;
    for _turn in 0..count {
        value = (value * 10).min(LIMIT);
    }
    value
}

// The digits within the places, and those past them.
fn split_places(fraction: &[u8], places: usize) -> (&[u8], &[u8])
    ensures within { result.0.now ≡ take places fraction.now }
    ensures past { result.1.now ≡ drop places fraction.now }
{
    if places < fraction.len() {
        fraction.split_at(places)
    } else {
        (fraction, &[])
    }
}

// The size in units of the number with these digits before and after the point, or the limit if the
// size is above it.
#[tactic(auto, using(crate::proofs::Capped::capped_parts))]
fn capped_units(places: usize, whole: &[u8], fraction: &[u8]) -> u64
    requires whole { list_all is_ascii_digit whole.now ≡ true }
    requires fraction { list_all is_ascii_digit fraction.now ≡ true }
    ensures { result ≡ min LIMIT (units places whole.now fraction.now) }
{
    let value = append_digits(0, whole, LIMIT);
    let value = append_digits(value, split_places(fraction, places).0, LIMIT);
    append_zeros(value, places.saturating_sub(fraction.len()))
}

// The coordinate with this sign and these parts before and after the point.
fn signed_value(minus: bool, places: usize, whole: &[u8], fraction: &[u8]) -> Result<i32, DecFault>
    ensures { result ≡ value_in_units minus places whole.now fraction.now }
{
    if !are_digits(whole) || !are_digits(fraction) || (whole.is_empty() && fraction.is_empty()) {
        return Err(DecFault::Malformed);
    }
    if !are_zeros(split_places(fraction, places).1) {
        return Err(DecFault::Fraction);
    }
    let size = capped_units(places, whole, fraction);
    if size >= LIMIT {
        return Err(DecFault::Range);
    }
    let size = size as i32;
    Ok(if minus { -size } else { size })
}

// The parts of a text before and after its first point.
fn split_point(text: &[u8]) -> (&[u8], &[u8])
    ensures before { result.0.now ≡ before_point text.now }
    ensures behind { result.1.now ≡ behind_point text.now }
{
    let mut end = 0;
    while end < text.len() && text[end] != b'.' {
        end += 1;
    }
    let (whole, rest) = text.split_at(end);
    match rest.split_first() {
        Some((_, fraction)) => (whole, fraction),
        None => (whole, rest),
    }
}

/// The coordinate that `text` spells, in units of 10^-`places`.
///
/// A coordinate is an optional `+` or `-`, then digits, then optionally a point and digits, with at
/// least one digit in all; every other text is [`Malformed`](DecFault::Malformed). A digit past the
/// places that isn't 0 gives [`Fraction`](DecFault::Fraction), and otherwise a size above 2047
/// units gives [`Range`](DecFault::Range). Allocates nothing.
pub fn coordinate(text: &[u8], places: u8) -> Result<i32, DecFault>
    requires { places ≤ 3 }
    ensures { result ≡ coordinate_of places text.now }
{
    let (minus, digits) = match text.split_first() {
        Some((b'-', rest)) => (true, rest),
        Some((b'+', rest)) => (false, rest),
        _ => (false, text),
    };
    let (whole, fraction) = split_point(digits);
    signed_value(minus, usize::from(places), whole, fraction)
}
