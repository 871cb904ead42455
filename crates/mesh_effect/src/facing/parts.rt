// The parts of a float.
ghost use Rattle.std.specs.Prelude.{◌≤◌, ◌<◌};

/// A whole number: `significand * 2^place`, with a sign.
#[derive(Clone, Copy, Debug)]
pub(crate) struct FloatParts {
    pub negative: bool,
    pub significand: u32,
    pub place: u32,
    ghost short: { significand < 16777216 },
    ghost placed: { place ≤ 254 },
}
