// A plane's points as seen from its front.
use ember_algebra::Sign;
use ember_model::{Axis, Plane, main_axis};
use mesh_point::{PlanePoint, SpacePoint, seen_along, turn};
use std::cmp::Ordering;

/// The view along the main axis of a plane, from its front.
#[derive(Clone, Copy)]
pub struct View {
    axis: Axis,
    is_mirrored: bool,
}

impl View {
    /// The view of the plane from its front, along its main axis.
    pub fn of(plane: &Plane) -> View {
        let axis = main_axis(plane);
        let along = match axis {
            Axis::X => plane.a,
            Axis::Y => plane.b,
            Axis::Z => plane.c,
        };
        View {
            axis,
            is_mirrored: along < 0,
        }
    }

    /// The point as seen from the front: without its coordinate along the axis.
    pub fn seen(&self, p: &SpacePoint) -> PlanePoint {
        let seen = seen_along(p, self.axis);
        if self.is_mirrored {
            seen.mirrored()
        } else {
            seen
        }
    }
}

/// The order of points from left to right, and from below for points above each other.
pub fn sweep_order(p: &PlanePoint, q: &PlanePoint) -> Ordering {
    match p.right().compare(&q.right()) {
        Ordering::Equal => p.up().compare(&q.up()),
        order => order,
    }
}

/// Whether the three points turn left. Points on one line don't.
pub fn is_left_turn(p: &PlanePoint, q: &PlanePoint, r: &PlanePoint) -> bool {
    match turn(p, q, r) {
        Sign::Pos => true,
        Sign::Neg | Sign::Zero => false,
    }
}
