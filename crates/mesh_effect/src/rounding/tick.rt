// Ticks: the small lengths in which moves are counted.
ghost use Rattle.std.specs.Prelude.{◌≡◌, ◌≤◌};
ghost use Rattle.mesh_effect.specs.Rounding.Ticks.{power_tick, decimal_tick};

/// A small length: `numerator / denominator` of the user's unit.
#[derive(Clone, Copy, Debug, PartialEq, Eq)]
pub struct Tick {
    pub numerator: u64,
    pub denominator: u128,
}

// A last bit at this place is 2^62 units.
const UNIT: u32 = 211;

// A tick for floats: 2^62 of them are a last bit at this place, of which 0 stands for 2^-149.
pub(crate) fn power_tick(top: u32) -> Tick
    requires least { 85 ≤ top }
    requires most { top ≤ 254 }
    ensures { result ≡ power_tick top }
{
    if top < UNIT {
        Tick {
            numerator: 1,
            denominator: 1 << (UNIT - top),
        }
    } else {
        Tick {
            numerator: 1 << (top - UNIT),
            denominator: 1,
        }
    }
}

// A tick for decimals: 2^62 of them are the unit of the last place.
pub(crate) fn decimal_tick(places: u32) -> Tick
    requires { places ≤ 17 }
    ensures { result ≡ decimal_tick places }
{
    Tick {
        numerator: 1,
        denominator: (1 << 62) * u128::from(10u64.pow(places)),
    }
}
