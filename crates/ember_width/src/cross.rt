// Cross products of normals.
ghost use Rattle.ember_width.specs.Broad.{IsCross};

/// The cross product of two normals.
#[derive(Clone, Copy)]
pub struct Cross {
    pub x: i128,
    pub y: i128,
    pub z: i128,
    ghost small: { IsCross (record { x = x; y = y; z = z }) },
}
