// Greatest common divisors.
ghost use Rattle.std.specs.Prelude.{◌≢◌, [], ◌∷◌, unsigned_abs};
ghost use Rattle.std.specs.Int.{IsGcd};
ghost use Rattle.mesh_certificate.specs.Key.Divisors.{IsGreatestDivisor};

use ember_algebra::gcd;

/// The greatest common divisor of three numbers; 0 if all three are 0.
pub fn divisor_of_three(a: i64, b: i64, c: i64) -> u64
    ensures { IsGreatestDivisor (a ∷ b ∷ c ∷ []) result }
{
    let first = gcd(a.unsigned_abs(), b.unsigned_abs());
    gcd(first, c.unsigned_abs())
}

/// The greatest common divisor of four numbers; 0 if all four are 0.
pub fn divisor_of_four(a: i64, b: i64, c: i64, d: i64) -> u64
    ensures { IsGreatestDivisor (a ∷ b ∷ c ∷ d ∷ []) result }
{
    gcd(divisor_of_three(a, b, c), d.unsigned_abs())
}

/// The greatest common divisor of `divisor`, which isn't 0, and `large`. Computes one remainder in
/// 128 bits; it is less than `divisor`, so the rest runs in 64 bits.
pub fn divisor_with(divisor: u64, large: i128) -> u64
    requires { divisor ≢ 0 }
    ensures { IsGcd divisor (unsigned_abs large) result }
{
    if divisor == 1 {
        return 1;
    }
    let rest = large.unsigned_abs() % divisor as u128;
    gcd(divisor, rest as u64)
}
