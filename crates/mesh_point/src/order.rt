// From the order of two numbers to the sign of their difference.
ghost use Rattle.std.specs.Prelude.{◌≡◌, ℕ, pos, ◌-ℤ◌};
ghost use Rattle.std.specs.Ordering.{nat_cmp};
ghost use Rattle.ember_algebra.specs.Sign.{sgn};

use ember_algebra::Sign;
use std::cmp::Ordering;

/// The sign of the first number less the second, by their order.
pub fn sign_of_order(order: Ordering) -> Sign
    ensures { (m n : ℕ) → order ≡ nat_cmp m n → result ≡ sgn (pos m -ℤ pos n) }
{
    match order {
        Ordering::Less => Sign::Neg,
        Ordering::Equal => Sign::Zero,
        Ordering::Greater => Sign::Pos,
    }
}
