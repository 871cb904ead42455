// Binary floats and integers as numbers.
ghost use Rattle.std.specs.Prelude.{◌≡◌};
ghost use Rattle.std.specs.Option.{option_map};
ghost use Rattle.mesh_number.specs.Number.Values.{value_of};
ghost use Rattle.mesh_number.specs.Number.Fractions.{whole_number};
ghost use Rattle.mesh_number.specs.Number.Floats.{binary32_value, binary64_value};

use crate::number::values::{Binary, Number};

// One more than the greatest fraction, as the bits hold it.
const FRACTIONS_32: u32 = 1 << 23;

const FRACTIONS_64: u64 = 1 << 52;

const EXPONENTS_32: u32 = 256;

const EXPONENTS_64: u64 = 2048;
// The least size above 0 is 2 to the power of minus this.
const SCALE_32: u16 = 149;

const SCALE_64: u16 = 1074;

/// The value of the binary32 (an IEEE 754 float of 32 bits) with these bits; `None` if that is
/// infinity or NaN.
#[tactic(none)]
pub fn binary32(bits: u32) -> Option<Number<'static>>
    ensures { option_map value_of result ≡ binary32_value bits }
{
    let minus = bits / (FRACTIONS_32 * EXPONENTS_32) == 1;
    let exponent = bits / FRACTIONS_32 % EXPONENTS_32;
    let fraction = bits % FRACTIONS_32;
    if exponent == EXPONENTS_32 - 1 {
        return None;
    }
    let (significand, power) = if exponent == 0 {
        (fraction, 0)
    } else {
        (FRACTIONS_32 + fraction, exponent - 1)
    };
    Some(Number::Binary(Binary {
        minus,
        significand: u64::from(significand),
        power: power as u16,
        scale: SCALE_32,
    }))
}

/// The value of the binary64 (an IEEE 754 float of 64 bits) with these bits; `None` if that is
/// infinity or NaN.
pub fn binary64(bits: u64) -> Option<Number<'static>>
    ensures { option_map value_of result ≡ binary64_value bits }
{
    let minus = bits / (FRACTIONS_64 * EXPONENTS_64) == 1;
    let exponent = bits / FRACTIONS_64 % EXPONENTS_64;
    let fraction = bits % FRACTIONS_64;
    if exponent == EXPONENTS_64 - 1 {
        return None;
    }
    let (significand, power) = if exponent == 0 {
        (fraction, 0)
    } else {
        (FRACTIONS_64 + fraction, exponent - 1)
    };
    Some(Number::Binary(Binary {
        minus,
        significand,
        power: power as u16,
        scale: SCALE_64,
    }))
}

/// A whole number as a number.
#[tactic(none)]
pub fn integer(value: i64) -> Number<'static>
    ensures { value_of result ≡ whole_number value }
{
    Number::Binary(Binary {
        minus: value < 0,
        significand: value.unsigned_abs(),
        power: 0,
        scale: 0,
    })
}
