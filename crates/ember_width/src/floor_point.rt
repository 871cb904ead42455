// Points by the unit cube of the grid in which they lie.
ghost use Rattle.ember_width.specs.Broad.{IsFloored};

use ember_model::Corner;

/// The point `floor + (x / w, y / w, z / w)`. Each coordinate of `floor` is the floor of the point's,
/// so `x`, `y` and `z` are remainders: from 0 to `w - 1`. `floor` is the least corner of the unit
/// cube of the grid that contains the point.
#[derive(Clone, Copy, Debug)]
pub struct FloorPoint {
    pub floor: Corner,
    pub x: i128,
    pub y: i128,
    pub z: i128,
    pub w: i128,
    ghost valid: { IsFloored floor (record { x = x; y = y; z = z; w = w }) },
}
