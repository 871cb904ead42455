// Greatest common divisors.
ghost use Rattle.std.specs.Int.{IsGcd};

/// The greatest common divisor of two numbers; of 0 and 0 it is 0.
pub fn gcd(a: u64, b: u64) -> u64
    ensures { IsGcd a b result }
{
    if a == 1 {
        return 1;
    }
    let mut x = a;
    let mut y = b;
    while y != 0 {
        let rest = x % y;
        x = y;
        y = rest;
    }
    x
}

/// The same of numbers of up to 128 bits. Divides in 128 bits only while both need more than 64.
pub fn long_gcd(a: u128, b: u128) -> u128
    ensures { IsGcd a b result }
{
    if a == 1 {
        return 1;
    }
    let mut x = a;
    let mut y = b;
    while y > u64::MAX as u128 {
        let rest = x % y;
        x = y;
        y = rest;
    }
    if y == 0 {
        return x;
    }
    if x <= u64::MAX as u128 {
        return gcd(x as u64, y as u64) as u128;
    }
    gcd(y as u64, (x % y) as u64) as u128
}
