// The walls of a box.
ghost use Rattle.ember_algebra.specs.Size.{Small};
ghost use Rattle.ember_box.specs.Aabbs.{most_wall};

use ember_model::Axis;

/// A wall of a box: its axis, its coordinate along that axis in steps, and whether the box lies
/// below it.
#[derive(Clone, Copy)]
pub struct Wall {
    pub axis: Axis,
    pub at: i32,
    pub is_high: bool,
    ghost small: { Small most_wall at },
}
