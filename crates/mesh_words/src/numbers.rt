// Whether numbers are above 0.
ghost use Rattle.std.specs.Prelude.{◌≡◌, ◌==◌};
ghost use Rattle.std.specs.Int.{is_positive};
ghost use Rattle.std.specs.List.{list_all};
ghost use Rattle.mesh_number.specs.Number.Values.{value_of};
ghost use Rattle.mesh_number.specs.Number.Texts.{value_of_text};
ghost use Rattle.mesh_words.specs.Values.{is_above_zero};

use mesh_number::{Number, read_decimal};

// Whether all digits are 0.
fn are_zeros(digits: &[u8]) -> bool
    ensures { result ≡ list_all (λ b. b == 48) digits.now }
{
    digits.iter().all(|digit| *digit == b'0')
}

// Whether the number is above 0.
#[tactic(auto, using(crate::proofs::Signs::decimal_sign, crate::proofs::Signs::binary_sign))]
fn is_positive(number: &Number<'_>) -> bool
    ensures { result ≡ is_positive (value_of number.now).numerator }
{
    match number {
        Number::Decimal(decimal) => {
            !decimal.minus && !(are_zeros(decimal.whole) && are_zeros(decimal.fraction))
        }
        Number::Binary(binary) => !binary.minus && binary.significand > 0,
    }
}

/// Whether the text is a decimal above 0.
pub fn is_above_zero(text: &str) -> bool
    ensures { result ≡ is_above_zero (value_of_text text.now) }
{
    match read_decimal(text.as_bytes()) {
        Some(number) => is_positive(&number),
        None => false,
    }
}
