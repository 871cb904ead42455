// Whole numbers below multiples of numbers.
ghost use Rattle.std.specs.Prelude.{◌≡◌, ◌^◌, ◌<◌, IfSome, unsigned_abs};
ghost use Rattle.std.specs.Option.{option_map};
ghost use Rattle.mesh_number.specs.Number.Fractions as fractions;
ghost use Rattle.mesh_number.specs.Number.Fractions.{signed_whole};
ghost use Rattle.mesh_number.specs.Number.Values.{value_of};

use crate::number::binary_sizes::binary_multiple;
use crate::number::decimal_sizes::decimal_multiple;
use crate::number::values::Number;

fn with_sign(minus: bool, size: Option<u128>) -> Option<i128>
    requires { IfSome size (λ size. size < 2 ^ 106) }
    ensures value { result ≡ option_map (signed_whole minus) size }
    ensures small { IfSome result (λ floor. unsigned_abs floor < 2 ^ 106) }
{
    match size {
        Some(size) => {
            let size = size as i128;
            Some(if minus { -size } else { size })
        }
        None => None,
    }
}

/// The greatest whole number that isn't above `factor` times the number, for a factor below 2^41;
/// `None` if the number is 10^15 or more in size.
pub fn floor_times(number: &Number, factor: u64) -> Option<i128>
    requires { factor < 2 ^ 41 }
    ensures value { result ≡ fractions.floor_times factor (value_of number.now) }
    ensures small { IfSome result (λ floor. unsigned_abs floor < 2 ^ 106) }
{
    match number {
        Number::Decimal(d) => with_sign(d.minus, decimal_multiple(d, factor)),
        Number::Binary(b) => with_sign(b.minus, binary_multiple(b, factor)),
    }
}

/// Whether the number is below 10^15 in size.
pub fn is_below_limit(number: &Number) -> bool
    ensures { result ≡ fractions.is_below_limit (value_of number.now) }
{
    floor_times(number, 0).is_some()
}
