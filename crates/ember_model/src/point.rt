// Corners of meshes, points of space, axes.

/// An axis of space.
#[derive(Clone, Copy, Debug, PartialEq, Eq)]
pub enum Axis {
    X,
    Y,
    Z,
}

/// A corner of a triangle, in units. It is valid if each coordinate is at most 2047 in size.
#[derive(Clone, Copy, Debug, PartialEq, Eq)]
pub struct Corner {
    pub x: i32,
    pub y: i32,
    pub z: i32,
}

/// The rational point `(x / w, y / w, z / w)`, in units. It is valid if `x`, `y` and `z` are below
/// 2^40 in size and `1 <= w < 2^40`.
#[derive(Clone, Copy, Debug, PartialEq, Eq)]
pub struct Spot {
    pub x: i64,
    pub y: i64,
    pub z: i64,
    pub w: i64,
}
