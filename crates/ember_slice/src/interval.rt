// The ends of a part of a line.
ghost use Rattle.ember_model.specs.Valid.{IsValidPlane};

use ember_model::Plane;
use ember_point::Meet;

/// A point of a line, and a plane that the line crosses there.
#[derive(Clone, Copy)]
pub(crate) struct End {
    pub plane: Plane,
    pub point: Meet,
    ghost valid: { IsValidPlane plane },
}

/// The points of a line after the first end and before the last one, if it has these ends.
#[derive(Clone, Copy)]
pub(crate) struct LineInterval {
    pub first: Option<End>,
    pub last: Option<End>,
}
