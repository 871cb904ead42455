// Points in 64 bits.
ghost use Rattle.ember_width.specs.Broad.{IsShort};

/// The point `(x / w, y / w, z / w)` in numbers below 2^62 in size.
#[derive(Clone, Copy, Debug)]
pub struct ShortPoint {
    pub x: i64,
    pub y: i64,
    pub z: i64,
    pub w: i64,
    ghost valid: { IsShort (record { x = x; y = y; z = z; w = w }) },
}
