// Coordinates by their floors.
ghost use Rattle.mesh_point.specs.Coordinates.{IsCoordinate};

/// The number `floor + rest / weight`: `floor` is its floor, so `rest` is from 0 to `weight - 1`.
#[derive(Clone, Copy, Debug)]
pub struct Coordinate {
    pub floor: i32,
    pub rest: i128,
    pub weight: i128,
    ghost valid: { IsCoordinate rest weight },
}
