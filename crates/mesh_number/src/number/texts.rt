// Decimals as texts.
ghost use Rattle.std.specs.Prelude.{◌≡◌};
ghost use Rattle.std.specs.Option.{option_map};
ghost use Rattle.ember_dec.specs.Decimal.{is_minus, unsigned, before_point, behind_point};
ghost use Rattle.mesh_number.specs.Number.Values.{value_of};
ghost use Rattle.mesh_number.specs.Number.Texts.{mantissa, exponent_of_digits, exponent_of, value_of_parts, value_of_text};

use crate::number::values::{Decimal, Exponent, Number};
use ember_dec::{append_digits, are_digits};

// The least size of an exponent that isn't read.
const EXPONENT_LIMIT: u64 = 10_000;

// Whether the text begins with a minus, and what follows a sign at its beginning.
fn split_sign(text: &[u8]) -> (bool, &[u8])
    ensures minus { result.0 ≡ is_minus text.now }
    ensures rest { result.1.now ≡ unsigned text.now }
{
    match text.split_first() {
        Some((b'-', rest)) => (true, rest),
        Some((b'+', rest)) => (false, rest),
        _ => (false, text),
    }
}

// The parts of a text before and after its first point.
fn split_point(text: &[u8]) -> (&[u8], &[u8])
    ensures before { result.0.now ≡ before_point text.now }
    ensures behind { result.1.now ≡ behind_point text.now }
{
    let mut end = 0;
    while end < text.len() && text[end] != b'.' {
        end += 1;
    }
    let (whole, rest) = text.split_at(end);
    match rest.split_first() {
        Some((_, fraction)) => (whole, fraction),
        None => (whole, rest),
    }
}

#[tactic(none)]
fn read_exponent(minus: bool, digits: &[u8]) -> Option<Exponent>
    ensures { result ≡ exponent_of_digits minus digits.now }
{
    if digits.is_empty() || !are_digits(digits) {
        return None;
    }
    let size = append_digits(0, digits, EXPONENT_LIMIT);
    if size >= EXPONENT_LIMIT {
        return None;
    }
    Some(Exponent {
        minus,
        size: size as u16,
    })
}

// The part of a text before its first `e` or `E`, and the exponent after it.
#[tactic(none)]
fn split_exponent(text: &[u8]) -> (&[u8], Option<Exponent>)
    ensures mantissa { result.0.now ≡ mantissa text.now }
    ensures exponent { result.1 ≡ exponent_of text.now }
{
    let mut end = 0;
    while end < text.len() && text[end] != b'e' && text[end] != b'E' {
        end += 1;
    }
    let (mantissa, rest) = text.split_at(end);
    match rest.split_first() {
        Some((_, behind)) => {
            let (minus, digits) = split_sign(behind);
            (mantissa, read_exponent(minus, digits))
        }
        None => (
            mantissa,
            Some(Exponent {
                minus: false,
                size: 0,
            }),
        ),
    }
}

// The decimal with this sign, these digits before and after the point, and this exponent.
#[tactic(none)]
fn decimal_of_parts<'a>(
    minus: bool,
    whole: &'a [u8],
    fraction: &'a [u8],
    exponent: Option<Exponent>,
) -> Option<Number<'a>>
    ensures { option_map value_of result ≡ value_of_parts minus whole.now fraction.now exponent }
{
    if !are_digits(whole) || !are_digits(fraction) || (whole.is_empty() && fraction.is_empty()) {
        return None;
    }
    match exponent {
        Some(exponent) => Some(Number::Decimal(Decimal {
            minus,
            whole,
            fraction,
            exponent,
        })),
        None => None,
    }
}

/// The number that `text` spells, if it is a decimal: an optional `+` or `-`, digits with at most
/// one point and at least one digit, then optionally `e` or `E`, an optional sign and an exponent.
///
/// There may be any number of digits. An exponent has at least one digit, and at most four after
/// its leading zeros. The number borrows its digits from the text.
pub fn read_decimal(text: &[u8]) -> Option<Number<'_>>
    ensures { option_map value_of result ≡ value_of_text text.now }
{
    let (minus, rest) = split_sign(text);
    let (digits, exponent) = split_exponent(rest);
    let (whole, fraction) = split_point(digits);
    decimal_of_parts(minus, whole, fraction, exponent)
}
