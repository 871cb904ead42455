// Points and vectors with short coordinates.
ghost use Rattle.mesh_effect.specs.Facing.Sizes.{IsShort, IsShortStep};

/// A point whose coordinates are at most 2^48 in size.
#[derive(Clone, Copy, Debug)]
pub(crate) struct ShortPoint {
    pub x: i64,
    pub y: i64,
    pub z: i64,
    ghost sized: { IsShort x y z },
}

/// The difference of two such points.
#[derive(Clone, Copy, Debug)]
pub(crate) struct ShortVector {
    pub x: i64,
    pub y: i64,
    pub z: i64,
    ghost sized: { IsShortStep x y z },
}
