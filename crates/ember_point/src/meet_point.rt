// The point of three planes.
ghost use Rattle.ember_model.specs.Valid.{IsValidMeet};

/// The rational point `(x / w, y / w, z / w)`: `1 <= w < 2^78`, and the coordinates are below
/// 2^92 in size.
#[derive(Clone, Copy, Debug, PartialEq, Eq)]
pub struct Meet {
    pub x: i128,
    pub y: i128,
    pub z: i128,
    pub w: i128,
    ghost valid: { IsValidMeet (record { x = x; y = y; z = z; w = w }) },
}
