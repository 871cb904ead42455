// Triangles of floats.

/// A point or a direction: the bits of three binary32 (IEEE 754 floats of 32 bits).
#[derive(Clone, Copy, Debug, PartialEq, Eq)]
pub struct FloatPoint {
    pub x: u32,
    pub y: u32,
    pub z: u32,
}

/// A triangle of a file: its normal and its corners, counter-clockwise seen from outside.
#[derive(Clone, Copy, Debug, PartialEq, Eq)]
pub struct FloatTriangle {
    pub normal: FloatPoint,
    pub a: FloatPoint,
    pub b: FloatPoint,
    pub c: FloatPoint,
}
