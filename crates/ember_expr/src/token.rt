// The tokens of a text.
ghost use Rattle.std.specs.Prelude.{◌≡◌, ◌≤◌, ◌<◌, ◌++◌, ◌∷◌, [], IfOk, OnOk, length, min};
ghost use Rattle.ember_expr.specs.Limits.{most_expression_bytes};
ghost use Rattle.ember_dec.specs.Digits.{number_from, digits_of};
ghost use Rattle.ember_expr.specs.Tokens.{tokens_of, lexeme_of, sign_of, before_equals, named_by, odd_in};

use crate::trees::Rel;
use ember_dec::{append_digits, split_digits};
use std::alloc::{AllocError, Global};

/// What a token is.
#[derive(Clone, Copy, Debug, PartialEq, Eq)]
pub enum Word {
    Bar,
    Hat,
    Amp,
    Bang,
    Open,
    Close,
    Plus,
    Minus,
    Star,
    Compare(Rel),
    Odd,
    /// A number, or 1,000,001 if it is above 1,000,000.
    Number(u32),
    /// `m` and a number.
    Mesh(u32),
    /// `w` and a number.
    Wind(u32),
    /// What no rule allows.
    Unknown,
}

/// A token, and the place of its first byte, counted from 0.
#[derive(Clone, Copy, Debug, PartialEq, Eq)]
pub struct Token {
    pub word: Word,
    pub place: u32,
}

/// The longest word at the front of a text. It has `bytes_after` bytes after its first one.
#[derive(Clone, Copy, Debug, PartialEq, Eq)]
pub struct Lexeme {
    pub word: Word,
    pub bytes_after: usize,
}

// Each number above the largest that is allowed is read as this one.
const LARGE: u64 = 1_000_001;

/// The tokens of a text in order.
pub fn tokens(alloc: Global, text: &[u8]) -> Result<Vec<Token>, AllocError>
    requires { length text.now ≤ most_expression_bytes }
    ensures tokens { IfOk result (λ v. v.items ≡ tokens_of text.now) }
    ensures few { IfOk result (λ v. length v.items ≤ length text.now) }
{
    let mut tokens = Vec::new(alloc);
    let mut rest = text;
    let mut place = 0;
    'tokens: while let Some((first, after)) = rest.split_first() {
        if *first == b' ' {
            rest = after;
            place += 1;
            continue;
        }
        let lexeme = longest(*first, after);
        add(&mut tokens, lexeme.word, place)?;
        rest = after.split_at(lexeme.bytes_after).1;
        place += 1 + lexeme.bytes_after as u32;
    }
    Ok(tokens)
}

// One token more.
fn add(tokens: &mut Vec<Token>, word: Word, place: u32) -> Result<(), AllocError>
    ensures { OnOk result (tokens.new.items ≡ tokens.old.items ++ record { word = word; place = place } ∷ []) }
{
    tokens.push(Token { word, place })?;
    Ok(())
}

// The longest word of a text that has this first byte.
fn longest(first: u8, after: &[u8]) -> Lexeme
    ensures lexeme { result ≡ lexeme_of first after.now }
    ensures within { result.bytes_after ≤ length after.now }
{
    if first.is_ascii_digit() {
        let (value, bytes_after) = number(u32::from(first - b'0'), after);
        return Lexeme {
            word: Word::Number(value),
            bytes_after,
        };
    }
    match first {
        b'm' => {
            let (mesh, bytes_after) = number(0, after);
            named(Word::Mesh(mesh), bytes_after)
        }
        b'w' => {
            let (mesh, bytes_after) = number(0, after);
            named(Word::Wind(mesh), bytes_after)
        }
        b'o' => odd(after),
        b'!' => equals(Word::Bang, Rel::NotEqual, after),
        b'<' => equals(Word::Compare(Rel::Less), Rel::LessEqual, after),
        b'>' => equals(Word::Compare(Rel::Greater), Rel::GreaterEqual, after),
        _ => Lexeme {
            word: sign(first),
            bytes_after: 0,
        },
    }
}

// The number whose first digits have the value `start` and whose others begin the text, and how
// many these are.
fn number(start: u32, text: &[u8]) -> (u32, usize)
    requires { start < 10 }
    ensures value { result.0 ≡ min 1000001 (number_from start (digits_of text.now)) }
    ensures bytes_after { result.1 ≡ length (digits_of text.now) }
    ensures within { result.1 ≤ length text.now }
{
    let (digits, _) = split_digits(text);
    let value = append_digits(u64::from(start), digits, LARGE);
    (value as u32, digits.len())
}

// A letter and a number of `bytes_after` digits.
fn named(word: Word, bytes_after: usize) -> Lexeme
    ensures { result ≡ named_by word bytes_after }
{
    if bytes_after == 0 {
        return Lexeme {
            word: Word::Unknown,
            bytes_after: 0,
        };
    }
    Lexeme { word, bytes_after }
}

// The word that an `o` begins.
fn odd(after: &[u8]) -> Lexeme
    ensures lexeme { result ≡ odd_in after.now }
    ensures within { result.bytes_after ≤ length after.now }
{
    match after {
        [b'd', b'd', ..] => Lexeme {
            word: Word::Odd,
            bytes_after: 2,
        },
        _ => Lexeme {
            word: Word::Unknown,
            bytes_after: 0,
        },
    }
}

// The word `plain`, or the relation `joined` if a `=` follows directly.
fn equals(plain: Word, joined: Rel, after: &[u8]) -> Lexeme
    ensures lexeme { result ≡ before_equals plain joined after.now }
    ensures within { result.bytes_after ≤ length after.now }
{
    match after.split_first() {
        Some((b'=', _)) => Lexeme {
            word: Word::Compare(joined),
            bytes_after: 1,
        },
        _ => Lexeme {
            word: plain,
            bytes_after: 0,
        },
    }
}

// A sign of one byte.
fn sign(byte: u8) -> Word
    ensures { result ≡ sign_of byte }
{
    match byte {
        b'|' => Word::Bar,
        b'^' => Word::Hat,
        b'&' => Word::Amp,
        b'(' => Word::Open,
        b')' => Word::Close,
        b'+' => Word::Plus,
        b'-' => Word::Minus,
        b'*' => Word::Star,
        b'=' => Word::Compare(Rel::Equal),
        _ => Word::Unknown,
    }
}
