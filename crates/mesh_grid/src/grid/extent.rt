// How far surfaces extend.
ghost use Rattle.std.specs.Prelude.{◌^◌, ◌<◌};

use crate::snap::GridStep;

/// How long the surfaces of a scene are, and the finest step at which they fit on a grid.
#[derive(Clone, Copy, Debug, PartialEq, Eq)]
pub struct SceneExtent {
    /// The length in trillionths of the unit: the greatest distance of two coordinates along an
    /// axis, where each is rounded to the nearest trillionth.
    pub trillionths: u128,
    pub finest: GridStep,
    ghost small: { trillionths < 2 ^ 108 },
}
