// Decimal digits.
ghost use Rattle.std.specs.Prelude.{◌≡◌, ◌≤◌, ◌^◌, true, min};
ghost use Rattle.std.specs.List.{list_all};
ghost use Rattle.std.specs.Char.{is_ascii_digit};
ghost use Rattle.ember_dec.specs.Digits.{number_from, digits_of, behind_digits};

/// Whether all bytes are decimal digits.
pub fn are_digits(text: &[u8]) -> bool
    ensures { result ≡ list_all is_ascii_digit text.now }
{
    text.iter().all(|b| b.is_ascii_digit())
}

/// The decimal digits at the front, and what follows them.
pub fn split_digits(text: &[u8]) -> (&[u8], &[u8])
    ensures digits { result.0.now ≡ digits_of text.now }
    ensures behind { result.1.now ≡ behind_digits text.now }
{
    let mut end = 0;
    while end < text.len() && text[end].is_ascii_digit() {
        end += 1;
    }
    text.split_at(end)
}

/// `start` followed by these digits, as a number, or the limit if the number is above it.
#[tactic(auto, using(crate::proofs::Capped::number_from_capped))]
pub fn append_digits(start: u64, digits: &[u8], limit: u64) -> u64
    requires digits { list_all is_ascii_digit digits.now ≡ true }
    requires start { start ≤ limit }
    requires limit { limit ≤ 10 ^ 18 }
    ensures value { result ≡ min limit (number_from start digits.now) }
    ensures small { result ≤ limit }
{
    let mut value = start;
    for digit in digits {
        value = (value * 10 + u64::from(*digit - b'0')).min(limit);
    }
    value
}
