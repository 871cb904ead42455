// The path from a start s, beside the least corner `lo` of a box, to a point e of a region: three
// segments along the axes, the last one along the region's main axis. With the coordinates in the
// order of the path's axes, it leads
//
//     (s1, s2, s3) -> (e1, s2, s3) -> (e1, e2, s3) -> (e1, e2, e3).
//
// It ends directly before or directly after e. For e take the region's inside point
//
//     a + h (b - a) + h^2 (c - a),
//
// with its first three corners a, b, c and any h > 0 that is small enough. So e is on the same side
// of a plane as the first of these corners that isn't on the plane.
//
// For s take lo + (δ, δ^2, δ^3), along x, y and z, with any δ > 0 that is small enough for this e,
// and at most 1/f, where f is the number `fine` of the grid. For δ = 1/f this is the reference
// point. A support or edge plane of a triangle has the same sign at both (`side_beside` of
// ember_ref), so the winding numbers at both are the same too.
//
// To learn on which side of a plane a segment ends, the code takes the coordinates of `lo` in place
// of those of s: it looks at (e1, lo2, lo3) or at (e1, e2, lo3). A plane that isn't 0 at this point
// has the same sign at the segment's end, since δ is small enough. With the reference point for s
// this could fail: the plane may pass between (e1, lo2, lo3) and (e1, s2, s3). A plane that is 0 at
// this point is parallel to the path up to there (vertices.rt). So the segment ends on the side of
// s, which is that of the reference point.
ghost use Rattle.std.specs.Prelude.{◌≡◌, ◌+◌, ◌&&◌, ◌<ℤ◌, pos, All};
ghost use Rattle.ember_algebra.specs.Size.{Small};
ghost use Rattle.ember_box.specs.Aabbs.{most_wall};
ghost use Rattle.ember_trace.specs.FirstCorners.{HasFirstCorners};

use ember_model::Axis;
use ember_poly::Ring;
use ember_width::Width;

/// A path begins beside the least corner `lo` of its box, in steps of the grid. Its three segments
/// run along `first_axis`, `second_axis` and `main`, in this order. It ends directly before or
/// after the inside point that the first three corners of `region` define. `is_short` says whether
/// all three are short points.
#[derive(Drop)]
pub struct Path<'a, W: Width> {
    pub lo: [i32; 3],
    pub first_axis: Axis,
    pub second_axis: Axis,
    pub main: Axis,
    pub first_corner: W::Point,
    pub second_corner: W::Point,
    pub third_corner: W::Point,
    pub is_short: bool,
    pub region: &'a Ring<W>,
    ghost small: { All (Small most_wall) lo },
    ghost within: { All (Small (W.corner + 1)) lo },
    ghost corners: { is_short ≡ W.short first_corner && (W.short second_corner && W.short third_corner) },
    ghost region_corners: { ∥ HasFirstCorners region.now
        (W.spot first_corner) (W.spot second_corner) (W.spot third_corner) ∥₁ },
}
