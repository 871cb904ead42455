// Exact quotients.
ghost use Rattle.std.specs.Prelude.{◌≡◌, ◌≢◌, pos, ◌*ℤ◌, unsigned_abs};
ghost use Rattle.std.specs.Int.{◌∣◌};
ghost use Rattle.ember_algebra.specs.Size.{Small};

/// `n / divisor`, without a remainder. The divisor isn't 0 and divides `n`, which is at most 2^62
/// in size.
pub fn quotient(n: i64, divisor: i64) -> i64
    requires nonzero { divisor ≢ pos 0 }
    requires divides { unsigned_abs divisor ∣ unsigned_abs n }
    requires small { Small 4611686018427387904 n }
    ensures { result *ℤ divisor ≡ n }
{
    if divisor == 1 { n } else { n / divisor }
}

/// `n / divisor`, without a remainder. The divisor isn't 0 and divides `n`, which is at most 2^126
/// in size. Divides in 64 bits if both are below 2^62 in size.
pub fn large_quotient(n: i128, divisor: i128) -> i128
    requires nonzero { divisor ≢ pos 0 }
    requires divides { unsigned_abs divisor ∣ unsigned_abs n }
    requires small { Small 85070591730234615865843651857942052864 n }
    ensures { result *ℤ divisor ≡ n }
{
    if divisor == 1 {
        n
    } else if n.unsigned_abs() < 1 << 62 && divisor.unsigned_abs() < 1 << 62 {
        ((n as i64) / (divisor as i64)) as i128
    } else {
        n / divisor
    }
}
