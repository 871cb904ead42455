//! The signs of integers, and greatest common divisors. The crate's proofs are the algebra that all
//! other crates use: README.md has a list.
#![tactic(auto)]

ghost use Rattle.std.specs.Prelude.{◌≡◌, ℤ, ◌*ℤ◌};
ghost use Rattle.ember_algebra.specs.Sign.{sgn, flip, times};

mod divisors;

pub use divisors::{gcd, long_gcd};

/// The sign of an integer.
#[derive(Copy, Clone, Debug, PartialEq, Eq)]
pub enum Sign {
    /// Less than 0.
    Neg,
    /// Equal to 0.
    Zero,
    /// Greater than 0.
    Pos,
}

/// The sign of `x`. Every `i128` has one.
pub fn sign_of(x: i128) -> Sign
    ensures { result ≡ sgn x }
{
    if x < 0 {
        Sign::Neg
    } else if x == 0 {
        Sign::Zero
    } else {
        Sign::Pos
    }
}

/// The sign of the product of a number of sign `s` and one of sign `t`: for factors too large to be
/// multiplied.
#[tactic(auto, using(crate::proofs::Signs::times_is_product))]
pub fn product_sign(s: Sign, t: Sign) -> Sign
    ensures value { result ≡ times s t }
    ensures product { (x y : ℤ) → sgn x ≡ s → sgn y ≡ t → sgn (x *ℤ y) ≡ result }
{
    match s {
        Sign::Neg => match t {
            Sign::Neg => Sign::Pos,
            Sign::Zero => Sign::Zero,
            Sign::Pos => Sign::Neg,
        },
        Sign::Zero => Sign::Zero,
        Sign::Pos => t,
    }
}
