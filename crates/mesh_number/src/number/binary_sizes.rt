// Multiples of binary numbers, without their signs, rounded to whole numbers.
ghost use Rattle.std.specs.Prelude.{◌≡◌, ◌*◌, ◌^◌, ◌<◌, Bool, Some, IfSome};
ghost use Rattle.mesh_number.specs.Number.Quotients.{quotient, size_of_multiple};

use crate::number::values::Binary;

// The least size that is refused.
const LIMIT: u128 = 1_000_000_000_000_000;

// A number above 0 is at least the limit once it is doubled this often.
const MOST_LEFT: u32 = 50;

// Multiples are below 2 to the power of this.
const MOST_RIGHT: u32 = 105;

// Significands and factors below these have a product of 64 bits. Those of a binary32 and of most
// grids are.
const SHORT_SIGNIFICAND: u64 = 1 << 24;

const SHORT_FACTOR: u64 = 1 << 40;

// The quotient of a number of 64 bits by a power of two.
fn short_shifted(x: u64, places: u32, up: bool) -> u64
    requires { places < 64 }
    ensures { result ≡ quotient up x (2 ^ places) }
{
    if !up {
        x >> places
    } else if x == 0 {
        0
    } else {
        ((x - 1) >> places) + 1
    }
}

// The quotient by a power of two.
fn shifted(x: u128, places: u32, up: bool) -> u128
    requires { x < 2 ^ 105 }
    ensures value { result ≡ quotient up x (2 ^ places) }
    ensures small { result < 2 ^ 106 }
{
    let places = places.min(MOST_RIGHT);
    if up {
        (x + ((1u128 << places) - 1)) >> places
    } else {
        x >> places
    }
}

// The multiple of a whole number times a power of two.
fn raised(significand: u64, places: u32, factor: u64) -> Option<u128>
    requires { factor < 2 ^ 41 }
    ensures value { (up : Bool) → result ≡ size_of_multiple up factor (significand * 2 ^ places) 1 }
    ensures small { IfSome result (λ size. size < 2 ^ 106) }
{
    let size = u128::from(significand) << places.min(MOST_LEFT);
    if size < LIMIT {
        Some(size * u128::from(factor))
    } else {
        None
    }
}

// The multiple of a whole number divided by a power of two, if 64 bits are enough. The number is then
// below the limit, too.
fn short_lowered(significand: u64, places: u32, factor: u64, up: bool) -> u64
    requires significand { significand < 2 ^ 24 }
    requires factor { factor < 2 ^ 40 }
    requires places { places < 64 }
    ensures { Some result ≡ size_of_multiple up factor significand (2 ^ places) }
{
    short_shifted(significand * factor, places, up)
}

// The multiple of a whole number divided by a power of two, in 128 bits.
fn long_lowered(significand: u64, places: u32, factor: u64, up: bool) -> Option<u128>
    requires { factor < 2 ^ 41 }
    ensures value { result ≡ size_of_multiple up factor significand (2 ^ places) }
    ensures small { IfSome result (λ size. size < 2 ^ 106) }
{
    if shifted(u128::from(significand), places, false) < LIMIT {
        Some(shifted(u128::from(significand) * u128::from(factor), places, up))
    } else {
        None
    }
}

// The multiple of a whole number divided by a power of two.
fn lowered(significand: u64, places: u32, factor: u64, up: bool) -> Option<u128>
    requires { factor < 2 ^ 41 }
    ensures value { result ≡ size_of_multiple up factor significand (2 ^ places) }
    ensures small { IfSome result (λ size. size < 2 ^ 106) }
{
    if significand < SHORT_SIGNIFICAND && factor < SHORT_FACTOR && places < 64 {
        Some(u128::from(short_lowered(significand, places, factor, up)))
    } else {
        long_lowered(significand, places, factor, up)
    }
}

// The size of the multiple of a binary number, rounded up if there is a minus, and otherwise down.
pub(crate) fn binary_multiple(b: &Binary, factor: u64) -> Option<u128>
    requires { factor < 2 ^ 41 }
    ensures value { let over = b.now.significand * 2 ^ b.now.power in
        result ≡ size_of_multiple b.now.minus factor over (2 ^ b.now.scale) }
    ensures small { IfSome result (λ size. size < 2 ^ 106) }
{
    let power = u32::from(b.power);
    let scale = u32::from(b.scale);
    if power < scale {
        lowered(b.significand, scale - power, factor, b.minus)
    } else {
        raised(b.significand, power - scale, factor)
    }
}
