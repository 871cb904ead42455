// The limits of the values.
ghost use Rattle.std.specs.Prelude.{◌≡◌, ◌≤◌, ◌<◌, ◌^◌, ◌∷◌, [], option_map, IfSome, MatchOption, Some, None};
ghost use Rattle.std.specs.Bool.{Decides};
ghost use Rattle.ember_model.specs.Valid.{IsValidSpot};
ghost use Rattle.ember_words.specs.Limits.{decimal_of, number_within, is_minus, without_minus, whole_of, height_of, is_in_range, is_valid_spot, parts_of, four_of, point_of, is_set};

use ember_dec::are_digits;
use ember_model::Spot;

// `text` as a number, if it has 1 to `most_digits` decimal digits and nothing else.
#[tactic(auto, using(crate::proofs::Numbers::digits_parse, crate::proofs::Numbers::no_decimal))]
fn decimal(text: &str, most_digits: usize) -> Option<u64>
    requires { most_digits ≤ 18 }
    ensures value { result ≡ decimal_of most_digits text.now }
    ensures small { IfSome result (λ n. n < 10 ^ 18) }
{
    if text.len() > most_digits || !are_digits(text.as_bytes()) {
        return None;
    }
    text.parse::<u64>().ok()
}

/// `text` as a number. None unless it has 1 to 9 decimal digits, and nothing else, and the number
/// is from `least` to `most`.
pub fn number(text: &str, least: u32, most: u32) -> Option<u32>
    ensures { result ≡ number_within least most text.now }
{
    let value = decimal(text, 9)?;
    if value < u64::from(least) || value > u64::from(most) {
        return None;
    }
    Some(value as u32)
}

// Whether the text begins with a hyphen, and the text after it.
fn sign(text: &str) -> (bool, &str)
    ensures minus { result.0 ≡ is_minus text.now }
    ensures rest { result.1.now ≡ without_minus text.now }
{
    match text.strip_prefix('-') {
        Some(digits) => (true, digits),
        None => (false, text),
    }
}

// `text` as a whole number, if it has 1 to `most_digits` decimal digits after an optional hyphen.
fn whole(text: &str, most_digits: usize) -> Option<i64>
    requires { most_digits ≤ 18 }
    ensures { result ≡ whole_of most_digits text.now }
{
    let (minus, digits) = sign(text);
    let size = decimal(digits, most_digits)? as i64;
    Some(if minus { -size } else { size })
}

/// `text` as the level of `slice`, in units. None unless it is a whole number from -2048 to 2047,
/// in 1 to 9 decimal digits after an optional hyphen.
pub fn height(text: &str) -> Option<i32>
    ensures { result ≡ height_of text.now }
{
    let value = whole(text, 9)?;
    if value < -2048 || value > 2047 {
        return None;
    }
    Some(value as i32)
}

// The part before the first comma, and the text after it.
fn part(text: &str) -> (&str, Option<&str>)
    ensures { MatchOption result.1 (parts_of text.now ≡ result.0.now ∷ []) (λ rest. parts_of text.now ≡
        result.0.now ∷ parts_of rest.now) }
{
    match text.split_once(',') {
        Some((part, rest)) => (part, Some(rest)),
        None => (text, None),
    }
}

// Whether the number is below 2^40 in size.
fn is_in_range(value: i64) -> bool
    ensures { result ≡ is_in_range value }
{
    value.unsigned_abs() <= 1_099_511_627_775
}

// Whether the point is valid: all numbers are below 2^40 in size, and the weight is above 0.
#[tactic(auto, using(crate::proofs::Limited::spot_decides))]
fn is_valid(point: &Spot) -> bool
    ensures value { result ≡ is_valid_spot point.now }
    ensures valid { Decides result (IsValidSpot point.now) }
{
    is_in_range(point.x)
        && is_in_range(point.y)
        && is_in_range(point.z)
        && is_in_range(point.w)
        && point.w > 0
}

// The four parts between three commas.
#[tactic(auto, using(crate::proofs::Parts::too_many))]
fn four_parts(text: &str) -> Option<(&str, &str, &str, &str)>
    ensures { MatchOption result (four_of (parts_of text.now) ≡ None) (λ t. four_of (parts_of text.now) ≡
        Some (t.0.now, t.1.now, t.2.now, t.3.now)) }
{
    let (x, Some(rest)) = part(text) else {
        return None;
    };
    let (y, Some(rest)) = part(rest) else {
        return None;
    };
    let (z, Some(rest)) = part(rest) else {
        return None;
    };
    let (w, None) = part(rest) else {
        return None;
    };
    Some((x, y, z, w))
}

/// `text` as a point. None unless it is four whole numbers with commas between them, and the point
/// is valid.
pub fn point(text: &str) -> Option<Spot>
    ensures { result ≡ point_of text.now }
{
    let (x, y, z, w) = four_parts(text)?;
    let point = Spot {
        x: whole(x, 13)?,
        y: whole(y, 13)?,
        z: whole(z, 13)?,
        w: whole(w, 13)?,
    };
    if is_valid(&point) { Some(point) } else { None }
}

/// Whether a flag was given: its value is `true`.
pub fn is_set(value: Option<&str>) -> bool
    ensures { result ≡ is_set (option_map (λ text. text.now) value.entry) }
{
    match value {
        Some(text) => text == "true",
        None => false,
    }
}
