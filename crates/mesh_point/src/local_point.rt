// Points by their steps from the least floors of three points.
ghost use Rattle.mesh_point.specs.LocalPoints.{IsLocalPoint};

/// The point that lies `right + x / w` to the right of the least floors of three points, and
/// `up + y / w` above them.
#[derive(Clone, Copy)]
pub struct LocalPoint {
    pub right: u32,
    pub up: u32,
    pub x: u128,
    pub y: u128,
    pub w: u128,
    ghost valid: { IsLocalPoint right up x y w },
}
