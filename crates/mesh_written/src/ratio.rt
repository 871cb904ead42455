// Exact numbers.
ghost use Rattle.std.specs.Prelude.{◌^◌, ◌<◌};

use mesh_number::Wide;

/// An exact number: a whole number below 2^256 in size, over one from 1 to 2^115 - 1.
#[derive(Clone, Copy, Debug)]
pub struct Ratio {
    pub numerator: Wide,
    pub denominator: u128,
    ghost positive: { 0 < denominator },
    ghost small: { denominator < 2 ^ 115 },
}
