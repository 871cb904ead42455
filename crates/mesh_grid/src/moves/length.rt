// Lengths in few digits.
ghost use Rattle.std.specs.Prelude.{◌≤◌, ◌<◌, ◌^◌};

/// A length in the user's unit: `size` divided by 10 to the power of `places`.
#[derive(Clone, Copy, Debug, PartialEq, Eq)]
pub struct Length {
    pub size: u128,
    pub places: u32,
    ghost few: { places ≤ 12 },
    ghost small: { size < 2 ^ 127 },
}
