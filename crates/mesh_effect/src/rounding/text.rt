// Moves as text.
ghost use Rattle.std.specs.Prelude.{◌≡◌, ◌++◌, ◌*◌, ◌^◌, ◌≤◌, ◌<◌, OnOk, IfOk, length, decimal};
ghost use Rattle.mesh_effect.specs.Rounding.Shown.{rounded_of};
ghost use Rattle.mesh_effect.specs.Rounding.Texts.{two_digits, exponent_text, move_text};

use crate::rounding::length::Move;
use itoa::Buffer;
use mesh_number::put_shifted;
use std::alloc::AllocError;

// From this share of the user's unit on, a move is written without an exponent: 10^-4.
const SHARE: u128 = 10_000;

// How many digits the number has.
fn digits_of(size: u128) -> usize
    ensures { result ≡ length (decimal size) }
{
    let mut buffer = Buffer::new();
    buffer.format(size).len()
}

fn put_two_digits(n: u32, text: &mut Vec<u8>) -> Result<(), AllocError>
    requires { n < 100 }
    ensures { OnOk result (text.new.items ≡ text.old.items ++ two_digits n) }
{
    text.push(b'0' + (n / 10) as u8)?;
    text.push(b'0' + (n % 10) as u8)?;
    Ok(())
}

// The move with one digit before the point and an exponent.
fn put_exponent(size: u128, places: u32, text: &mut Vec<u8>) -> Result<(), AllocError>
    requires positive { 0 < size }
    requires short { size < 10 ^ 9 }
    requires some { 0 < places }
    requires below { size < 10 ^ places }
    requires places { places ≤ 38 }
    ensures { OnOk result (text.new.items ≡ text.old.items ++ exponent_text size places) }
{
    let behind = digits_of(size) as u32 - 1;
    put_shifted(false, size, behind, text)?;
    text.extend_from_slice(b"e-")?;
    put_two_digits(places - behind, text)
}

/// Appends the move as `%.9g` writes it: without an exponent if it is 0 or at least 10^-4, and
/// otherwise with one. It has no zeros at the end and no bare point. Its one error is out-of-memory.
pub fn put_move(moved: &Move, text: &mut Vec<u8>) -> Result<(), AllocError>
    ensures { OnOk result (text.new.items ≡ text.old.items ++ move_text (rounded_of moved.now)) }
{
    if moved.size == 0 {
        text.push(b'0')?;
        return Ok(());
    }
    if 10u128.pow(moved.places) <= SHARE * moved.size {
        return put_shifted(false, moved.size, moved.places, text);
    }
    put_exponent(moved.size, moved.places, text)
}
