// Cross products of normals.
ghost use Rattle.ember_point.specs.Crosses.{IsCross};

/// The cross product of two normals.
#[derive(Clone, Copy)]
pub struct Cross {
    pub x: i64,
    pub y: i64,
    pub z: i64,
    ghost small: { IsCross (record { x = x; y = y; z = z }) },
}
