// Axes and angles.
ghost use Rattle.std.specs.Prelude.{◌<◌};

/// An axis.
#[derive(Clone, Copy, Debug, PartialEq, Eq)]
pub enum Axis {
    X,
    Y,
    Z,
}

/// An angle in trillionths of a degree, less than a full turn.
#[derive(Clone, Copy, Debug, PartialEq, Eq)]
pub struct Angle {
    pub trillionths: u64,
    pub ghost within: { trillionths < 360_000_000_000_000 },
}
