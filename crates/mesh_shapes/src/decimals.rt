// Coordinates as text, with all their digits.
ghost use Rattle.std.specs.Prelude.{◌≡◌, ◌+◌, ◌*◌, ◌^◌, ◌<◌, ◌≤◌, ◌++◌, ◌==◌, true, min, length, OnOk, decimal};
ghost use Rattle.std.specs.List.{list_all};
ghost use Rattle.std.specs.Char.{is_ascii_digit};
ghost use Rattle.ember_dec.specs.Digits.{number_from};
ghost use Rattle.mesh_number.specs.Number.Fractions.{is_below_limit};
ghost use Rattle.mesh_number.specs.Round.Decimals.{sign_text, fraction_digits, fraction_text};
ghost use Rattle.mesh_place.specs.Decimals.{exact_value};
ghost use Rattle.mesh_write.specs.Text.Lines.{coordinate_text};
ghost use Rattle.mesh_shapes.specs.Texts.{most_places, units_of};

use itoa::Buffer;
use mesh_number::number_in;
use mesh_place::ExactDecimal;
use std::alloc::AllocError;

// The number that digits spell, or 10^15 if it is larger.
fn number_of(digits: &[u8]) -> u64
    requires { list_all is_ascii_digit digits.now ≡ true }
    ensures { result ≡ min (10 ^ 15) (number_from 0 digits.now) }
{
    number_in(digits).unwrap_or(0)
}

// Whether digits spell 0.
fn is_nought(digits: &[u8]) -> bool
    requires { list_all is_ascii_digit digits.now ≡ true }
    ensures { result ≡ (number_from 0 digits.now == 0) }
{
    number_of(digits) == 0
}

// Appends digits up to the last that isn't 0.
fn put_digits(digits: &[u8], out: &mut Vec<u8>) -> Result<(), AllocError>
    requires { list_all is_ascii_digit digits.now ≡ true }
    ensures { OnOk result (out.new.items ≡
        out.old.items ++ fraction_digits (length digits.now) (number_from 0 digits.now)) }
{
    let mut rest = digits;
    while let Some((first, others)) = rest.split_first() {
        if is_nought(rest) {
            return Ok(());
        }
        out.push(*first)?;
        rest = others;
    }
    Ok(())
}

// Appends a point and the digits behind it, first so many zeros; nothing if all digits are 0.
fn put_fraction(zeros: usize, digits: &[u8], out: &mut Vec<u8>) -> Result<(), AllocError>
    requires { list_all is_ascii_digit digits.now ≡ true }
    ensures { OnOk result (out.new.items ≡
        out.old.items ++ fraction_text (zeros + length digits.now) (number_from 0 digits.now)) }
{
    if is_nought(digits) {
        return Ok(());
    }
    out.push(b'.')?;
    for place in 0..zeros {
        out.push(b'0')?;
    }
    put_digits(digits, out)
}

// Appends a whole number.
pub(crate) fn put_whole(number: u64, out: &mut Vec<u8>) -> Result<(), AllocError>
    ensures { OnOk result (out.new.items ≡ out.old.items ++ decimal number) }
{
    let mut buffer = Buffer::new();
    out.extend_from_slice(buffer.format(number).as_bytes())
}

// Appends a minus before what is below 0.
fn put_sign(minus: bool, digits: &[u8], out: &mut Vec<u8>) -> Result<(), AllocError>
    requires { list_all is_ascii_digit digits.now ≡ true }
    ensures { OnOk result (out.new.items ≡ out.old.items ++ sign_text minus (number_from 0 digits.now)) }
{
    if minus && !is_nought(digits) {
        out.push(b'-')?;
    }
    Ok(())
}

/// Appends a coordinate, which is below 10^15 in size: all its digits, without zeros at the end, a bare
/// point or a sign of 0.
pub fn put_coordinate(decimal: &ExactDecimal, out: &mut Vec<u8>) -> Result<(), AllocError>
    requires { is_below_limit (exact_value decimal.now) ≡ true }
    ensures text { OnOk result (out.new.items ≡ out.old.items ++ coordinate_text most_places (units_of decimal.now)) }
    ensures places { decimal.now.places ≤ most_places }
{
    let places = usize::from(decimal.places);
    let digits = decimal.digits.as_slice();
    let (whole, fraction) = digits.split_at(digits.len().saturating_sub(places));
    put_sign(decimal.minus, digits, out)?;
    put_whole(number_of(whole), out)?;
    put_fraction(places.saturating_sub(fraction.len()), fraction, out)
}
