// Points of a plane by the unit squares in which they lie.
ghost use Rattle.mesh_point.specs.PlanePoints.{IsPlanePoint};

/// The point `(floor_x + x / w, floor_y + y / w)` of a plane. `floor_x` and `floor_y` are the floors of
/// its coordinates, so `x` and `y` are remainders: from 0 to `w - 1`. The weight is from 1 to below
/// 2^123.
#[derive(Clone, Copy, Debug, PartialEq, Eq)]
pub struct PlanePoint {
    pub floor_x: i32,
    pub floor_y: i32,
    pub x: i128,
    pub y: i128,
    pub w: i128,
    ghost valid: { IsPlanePoint x y w },
}
