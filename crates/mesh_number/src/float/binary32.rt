// The nearest binary32.
ghost use Rattle.std.specs.Prelude.{◌≡◌, ◌*◌, ◌^◌, ◌-◌, ◌<◌, ◌≤◌, ◌↔◌, None, IfSome, ◌+◌};
ghost use Rattle.ember_wide.specs.Whole.{size_of, value_of};
ghost use Rattle.mesh_number.specs.Float.Scaling.{IsScaled};
ghost use Rattle.mesh_number.specs.Float.Binary32.{IsNearestBinary32};

use crate::float::scaling::scaled;
use ember_wide::{Magnitude, Wide};
use std::cmp::Ordering;

// From here on a size is rounded to infinity: 2^128 less half of the last place of the greatest
// float.
const INFINITE: u128 = u128::MAX - (1 << 103) + 1;

// The bit of the sign.
const SIGN: u32 = 1 << 31;

// The exponent and the fraction. A significand of 2^24 gives the next exponent.
fn joined(n: &Wide, d: u128, place: u32, significand: u32) -> u32
    requires positive { 0 < d }
    requires below { size_of n.now.size < (2 ^ 128 - 2 ^ 103) * d }
    requires place { place ≤ 253 }
    requires scaled { IsScaled (size_of n.now.size) d place significand }
    ensures { IsNearestBinary32 (value_of n.now) d result }
{
    let bits = place * (1 << 23) + significand;
    if n.negative && bits != 0 {
        SIGN + bits
    } else {
        bits
    }
}

/// The bits of the binary32 (an IEEE 754 float of 32 bits) that is nearest to `n / d`; of two, the
/// one with the even significand. It is never -0. None if the size of the fraction is 2^128 - 2^103
/// or more, which rounds to infinity. The denominator is from 1 to 2^127 - 1.
pub fn nearest_binary32(n: &Wide, d: u128) -> Option<u32>
    requires positive { 0 < d }
    requires small { d < 2 ^ 127 }
    ensures infinite { result ≡ None ↔ (2 ^ 128 - 2 ^ 103) * d ≤ size_of n.now.size }
    ensures nearest { IfSome result (λ bits. IsNearestBinary32 (value_of n.now) d bits) }
{
    if n.size.compare(&Magnitude::product(d, INFINITE)) != Ordering::Less {
        return None;
    }
    let (place, significand) = scaled(&n.size, d);
    Some(joined(n, d, place, significand))
}
