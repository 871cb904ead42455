// The nearest binary32.
ghost use Rattle.std.specs.Prelude.{◌≡◌, ℕ, ◌*◌, ◌^◌, ◌-◌, ◌<◌, ◌≤◌, ◌↔◌, None, IfSome};
ghost use Rattle.ember_wide.specs.Whole.{size_of};
ghost use Rattle.ember_wide.specs.Vast.{vast_size};
ghost use Rattle.mesh_number.specs.Number.Fractions.{signed_whole};
ghost use Rattle.mesh_number.specs.Float.Scaling.{IsScaled};
ghost use Rattle.mesh_number.specs.Float.Binary32.{IsNearestBinary32};

use crate::scaling::scaled;
use ember_wide::{Magnitude, Vast};
use std::cmp::Ordering;

// From here on a size is rounded to infinity: 2^128 less half of the last place of the greatest
// float.
const INFINITE: u128 = u128::MAX - (1 << 103) + 1;

// The bit of the sign.
const SIGN: u32 = 1 << 31;

// The sign, the exponent and the fraction. A significand of 2^24 gives the next exponent.
fn joined(negative: bool, place: u32, significand: u32) -> u32
    requires place { place ≤ 253 }
    requires significand { significand ≤ 2 ^ 24 }
    ensures { (size d : ℕ) → 0 < d → size < (2 ^ 128 - 2 ^ 103) * d → IsScaled size d place significand →
        IsNearestBinary32 (signed_whole negative size) d result }
{
    let bits = place * (1 << 23) + significand;
    if negative && bits != 0 {
        SIGN + bits
    } else {
        bits
    }
}

/// The bits of the binary32 (an IEEE 754 float of 32 bits) that is nearest to `n / d` with this
/// sign; of two, the one with the even significand. It is never -0. None if the fraction is
/// 2^128 - 2^103 or more, which rounds to infinity. The denominator is from 1 to below 2^200.
pub fn nearest_binary32(negative: bool, n: &Vast, d: &Magnitude) -> Option<u32>
    requires positive { 0 < size_of d.now }
    requires small { size_of d.now < 2 ^ 200 }
    ensures infinite { result ≡ None ↔ (2 ^ 128 - 2 ^ 103) * size_of d.now ≤ vast_size n.now }
    ensures nearest { IfSome result (λ bits. IsNearestBinary32
        (signed_whole negative (vast_size n.now)) (size_of d.now) bits) }
{
    let limit = Vast::product(
        d,
        &Magnitude {
            high: 0,
            low: INFINITE,
        },
    );
    match n.compare(&limit) {
        Ordering::Less => {
            let (place, significand) = scaled(n, d);
            Some(joined(negative, place, significand))
        }
        Ordering::Equal => None,
        Ordering::Greater => None,
    }
}
