// Moves in few digits.
ghost use Rattle.std.specs.Prelude.{◌≤◌, ◌<◌, ◌^◌};

/// A length in the user's unit: `size` divided by 10 to the power of `places`. With places it has
/// at most nine digits.
#[derive(Clone, Copy, Debug, PartialEq, Eq)]
pub struct Move {
    pub size: u128,
    pub places: u32,
    ghost few: { places ≤ 38 },
    ghost small: { size < 2 ^ 108 },
    ghost short: { 0 < places → size < 10 ^ 9 },
}
