// The remainders of a point's coordinates.
ghost use Rattle.mesh_broad.specs.Ranges.{AreRemainders};

/// The remainders of a point's coordinates over its weight: the point lies in the unit cube that
/// begins at the floors of its coordinates, `x / w`, `y / w` and `z / w` from there. The weight is from
/// 1 to below 2^123.
#[derive(Clone, Copy, Debug, PartialEq, Eq)]
pub struct Remainders {
    pub x: u128,
    pub y: u128,
    pub z: u128,
    pub w: u128,
    ghost valid: { AreRemainders x y z w },
}
