// Decimals with a point.
ghost use Rattle.std.specs.Prelude.{◌≡◌, ◌+◌, ◌*◌, ◌^◌, ◌<◌, ◌≤◌, ◌++◌, OnOk, decimal};
ghost use Rattle.ember_wide.specs.Whole.{size_of};
ghost use Rattle.mesh_number.specs.Round.Nearest.{nearest_whole};
ghost use Rattle.mesh_number.specs.Round.Decimals.{sign_text, fraction_digits, fraction_text, decimal_text};

use crate::round::rounding::nearest;
use ember_wide::Wide;
use itoa::Buffer;
use std::alloc::AllocError;

fn put_sign(negative: bool, size: u128, out: &mut Vec<u8>) -> Result<(), AllocError>
    ensures { OnOk result (out.new.items ≡ out.old.items ++ sign_text negative size) }
{
    if negative && size != 0 {
        out.push(b'-')?;
    }
    Ok(())
}

// The digits of `part / 10^places`, up to the last that isn't 0.
fn put_digits(part: u64, places: u32, out: &mut Vec<u8>) -> Result<(), AllocError>
    requires places { places ≤ 17 }
    requires part { part < 10 ^ places }
    ensures { OnOk result (out.new.items ≡ out.old.items ++ fraction_digits places part) }
{
    let (mut rest, mut left) = (part, places);
    while rest != 0 {
        left -= 1;
        let unit = 10u64.pow(left);
        out.push(b'0' + (rest / unit) as u8)?;
        rest = rest % unit;
    }
    Ok(())
}

fn put_fraction(part: u64, places: u32, out: &mut Vec<u8>) -> Result<(), AllocError>
    requires places { places ≤ 17 }
    requires part { part < 10 ^ places }
    ensures { OnOk result (out.new.items ≡ out.old.items ++ fraction_text places part) }
{
    if part == 0 {
        return Ok(());
    }
    out.push(b'.')?;
    put_digits(part, places, out)
}

fn put_whole(whole: u128, out: &mut Vec<u8>) -> Result<(), AllocError>
    ensures { OnOk result (out.new.items ≡ out.old.items ++ decimal whole) }
{
    let mut buffer = Buffer::new();
    out.extend_from_slice(buffer.format(whole).as_bytes())
}

/// Appends `size / 10^places`, with a minus if it is negative. It has no zeros at the end, no bare
/// point, and no sign if it is 0. There are at most 17 places. Its one error is out-of-memory.
pub fn put_shifted(
    negative: bool,
    size: u128,
    places: u32,
    out: &mut Vec<u8>,
) -> Result<(), AllocError>
    requires { places ≤ 17 }
    ensures { OnOk result (out.new.items ≡ out.old.items ++ decimal_text negative size places) }
{
    let unit = u128::from(10u64.pow(places));
    put_sign(negative, size, out)?;
    put_whole(size / unit, out)?;
    put_fraction((size % unit) as u64, places, out)
}

/// Appends the decimal of at most `places` places that is nearest to `n / d`; of two equally near,
/// the one whose last place is even. It has no zeros at the end, no bare point, and no sign if it
/// is 0. There are at most 17 places; the denominator is from 1 to 2^127 - 1, and the fraction is
/// below 2^128 - 1 units of the last place. Its one error is out-of-memory.
pub fn put_decimal(n: &Wide, d: u128, places: u32, out: &mut Vec<u8>) -> Result<(), AllocError>
    requires positive { 0 < d }
    requires small { d < 2 ^ 127 }
    requires places { places ≤ 17 }
    requires fits { size_of n.now.size * 10 ^ places + d < 2 ^ 128 * d }
    ensures { let size = nearest_whole (size_of n.now.size * 10 ^ places) d in
        OnOk result (out.new.items ≡ out.old.items ++ decimal_text n.now.negative size places) }
{
    let unit = 10u64.pow(places);
    let size = nearest(&n.size.times(u128::from(unit)), d);
    put_shifted(n.negative, size, places, out)
}
