// The numbers that a grid needs.
ghost use Rattle.std.specs.Prelude.{◌≡◌, ℕ, ◌+◌, ◌*◌, ◌^◌, ◌<◌, ◌≤◌, ℤ, pos, ◌*ℤ◌, ◌<ℤ◌, IfSome, IsNone, IsTrue, ◌↔◌, Bool, true};
ghost use Rattle.ember_algebra.specs.Size.{Small};
ghost use Rattle.ember_algebra.specs.Sign.{sgn};
ghost use Rattle.ember_model.specs.declared.plane.Plane.{Plane as PlaneView};
ghost use Rattle.ember_model.specs.declared.point.Spot.{Spot};
ghost use Rattle.ember_model.specs.Limits.{broad_limit, wall_limit};
ghost use Rattle.ember_model.specs.Owners.{spot_of_corner};
ghost use Rattle.ember_model.specs.Planes.{value_at, opposite};
ghost use Rattle.ember_model.specs.Within.{IsCornerWithin, IsPlaneWithin, normal_limit};
ghost use Rattle.ember_point.specs.Points.{weight, meet_of};
ghost use Rattle.ember_width.specs.Broad.{IsBroadPlane};
ghost use Rattle.ember_width.specs.BroadPoints.{short_spot};
ghost use Rattle.ember_width.specs.Levels.{IsAlong, turn_at, level_meet};
ghost use Rattle.ember_width.specs.RootFloors.{floor_along, moved_within};

use crate::short_point::ShortPoint;
use ember_algebra::Sign;
use ember_model::{Axis, Corner, Plane};

/// How fine a grid is, and the numbers in which its points are computed. Everything is exact.
pub trait Width {
    /// The point in which three planes meet.
    type Point: Copy;

    /// How many steps of the grid are a unit of the boxes, which are 4096 units long at the root.
    const UNIT: i32;

    ghost UNIT: { ℤ };

    // a unit is halved this often until it is one step
    ghost scale: { ℕ };

    // the greatest coordinate of a corner
    ghost corner: { ℕ };

    // a number above the entries of all normals: points are shifted by its reciprocal and the powers of that
    ghost fine: { ℕ };

    // the planes whose meets and sides can be computed
    ghost IsPlane: { PlaneView → Type 0 };

    // the point as a rational one
    ghost spot: { Self.Point → Spot };

    // the point's four numbers are below 2^62 in size
    ghost short: { Self.Point → Bool };

    /// The one point of three planes, or `None` if there is none or more than one.
    fn meet(p: &Plane, q: &Plane, r: &Plane) -> Option<Self::Point>
        requires p { IsPlane p.now }
        requires q { IsPlane q.now }
        requires r { IsPlane r.now }
        ensures none { IsNone result ↔ (weight p.now q.now r.now ≡ pos 0) }
        ensures formula { IfSome result (λ m. spot m ≡ meet_of p.now q.now r.now) };

    /// The side of the plane on which the point lies: `Pos` in front of it, `Zero` on it.
    fn side(p: &Plane, m: &Self::Point) -> Sign
        requires { IsPlane p.now }
        ensures { result ≡ sgn (value_at p.now (spot m.now)) };

    /// The side of a plane that lies across this axis: its normal has no entry along the others.
    fn side_across(p: &Plane, axis: Axis, m: &Self::Point) -> Sign
        requires plane { IsPlane p.now }
        requires axis { IsAlong axis p.now }
        ensures { result ≡ sgn (value_at p.now (spot m.now)) };

    /// Whether the point's numbers are short. Then sides are found in fewer steps.
    fn is_short(m: &Self::Point) -> bool
        ensures { result ≡ short m.now };

    /// The side of the plane on which a short point lies.
    fn short_side(p: &Plane, m: &Self::Point) -> Sign
        requires plane { IsPlane p.now }
        requires short { short m.now ≡ true }
        ensures { result ≡ sgn (value_at p.now (spot m.now)) };

    /// The numbers of a short point.
    fn numbers(m: &Self::Point) -> ShortPoint
        requires { short m.now ≡ true }
        ensures { short_spot result ≡ spot m.now };

    /// The floor of the point's coordinate along an axis, in steps. If it lies outside of the root,
    /// the nearest whole number from one wall of the root to the other.
    fn floor_in_root(m: &Self::Point, axis: Axis) -> i32
        ensures { result ≡ moved_within (pos wall_limit *ℤ UNIT) (floor_along axis (spot m.now)) };

    /// Whether the root reaches to this coordinate: whether a wall of a box can have it.
    fn is_in_root(at: i64) -> bool
        ensures { IsTrue result ↔ Small (corner + 1) at };

    /// The point in which two planes meet the level with the coordinate `at` along the axis: a plane
    /// across it. Requires that the line of `p` in the level turns to that of `q` counter-clockwise.
    fn level_point(p: &Plane, q: &Plane, axis: Axis, at: i64) -> Self::Point
        requires p { IsPlane p.now }
        requires q { IsPlane q.now }
        requires at { Small (corner + 1) at }
        requires turns { pos 0 <ℤ turn_at axis p.now q.now }
        ensures { spot result ≡ level_meet axis at p.now q.now };

    /// The corner as a point with the weight 1.
    fn point_at(c: &Corner) -> Self::Point
        requires { IsCornerWithin corner c.now }
        ensures { spot result ≡ spot_of_corner c.now };

    // weights are positive
    ghost weighs: { (m : Self.Point) → pos 0 <ℤ (spot m).w };

    // the planes of triangles on the grid, with up to two coordinates fixed
    ghost takes: { (p : PlaneView) → IsPlaneWithin corner p → IsPlane p };

    // each of them with the opposite front
    ghost turns_round: { (p : PlaneView) → IsPlane p → IsPlane (opposite p) };

    // no plane is larger than those of the broad grid
    ghost is_broad: { (p : PlaneView) → IsPlane p → IsBroadPlane p };

    // nor is any corner
    ghost at_most_broad: { corner ≤ broad_limit };

    // the shifts are smaller than what any plane of a triangle tells apart
    ghost tells_apart: { normal_limit corner < fine };

    // a unit has this many steps
    ghost unit_is: { UNIT ≡ pos (2 ^ scale) };

    // and at most 256
    ghost few_steps: { scale ≤ 8 };

    // the root, 2048 units to each side of the origin, holds all corners
    ghost holds: { pos corner <ℤ (pos 2048 *ℤ UNIT) };

    // and ends one step past the farthest ones
    ghost ends: { 2 ^ scale * wall_limit ≤ corner + 1 };
}
