// Points that lie outside of the root.
ghost use Rattle.ember_wide.specs.Whole.{value_of};
ghost use Rattle.ember_width.specs.Broad.{IsFar};

use ember_wide::Wide;

/// The point `(x / w, y / w, z / w)` with coordinates of 256 bits. No corner of a region in the root
/// needs it.
#[derive(Clone, Copy, Debug)]
pub struct FarPoint {
    pub x: Wide,
    pub y: Wide,
    pub z: Wide,
    pub w: i128,
    ghost valid: { IsFar (record { x = value_of x; y = value_of y; z = value_of z; w = w }) },
}
