// The order of coordinates.
ghost use Rattle.std.specs.Prelude.{◌≡◌};
ghost use Rattle.mesh_point.specs.Orders.{numerator, coordinate_order};
ghost use Rattle.mesh_point.specs.SpacePoints.{spot_of, coordinate};
ghost use Rattle.mesh_point.specs.Turns.{numbers_of};

use crate::coordinate::Coordinate;
use crate::fractions::compare_fractions;
use crate::plane_point::PlanePoint;
use crate::space_point::SpacePoint;
use ember_model::Axis;
use std::cmp::Ordering;

impl Coordinate {
    /// The order of two coordinates. Where their floors differ, these decide it.
    pub fn compare(&self, other: &Coordinate) -> Ordering
        ensures { result ≡ coordinate_order self.now other.now }
    {
        match self.floor.cmp(&other.floor) {
            Ordering::Less => Ordering::Less,
            Ordering::Equal => {
                compare_fractions(self.rest, self.weight, other.rest, other.weight)
            }
            Ordering::Greater => Ordering::Greater,
        }
    }
}

impl SpacePoint {
    /// The point's coordinate along the axis.
    pub fn along(&self, axis: Axis) -> Coordinate
        ensures value { numerator result ≡ coordinate axis (spot_of self.now) }
        ensures weight { result.weight ≡ self.now.w }
    {
        let (floor, rest) = match axis {
            Axis::X => (self.floor_x, self.x),
            Axis::Y => (self.floor_y, self.y),
            Axis::Z => (self.floor_z, self.z),
        };
        Coordinate {
            floor,
            rest,
            weight: self.w,
        }
    }
}

impl PlanePoint {
    /// The point with its coordinates exchanged.
    pub fn mirrored(&self) -> PlanePoint
        ensures x { (numbers_of result).x ≡ (numbers_of self.now).y }
        ensures y { (numbers_of result).y ≡ (numbers_of self.now).x }
        ensures w { result.w ≡ self.now.w }
    {
        PlanePoint {
            floor_x: self.floor_y,
            floor_y: self.floor_x,
            x: self.y,
            y: self.x,
            w: self.w,
        }
    }

    /// The point's coordinate along the x axis.
    pub fn right(&self) -> Coordinate
        ensures value { numerator result ≡ (numbers_of self.now).x }
        ensures weight { result.weight ≡ self.now.w }
    {
        Coordinate {
            floor: self.floor_x,
            rest: self.x,
            weight: self.w,
        }
    }

    /// The point's coordinate along the y axis.
    pub fn up(&self) -> Coordinate
        ensures value { numerator result ≡ (numbers_of self.now).y }
        ensures weight { result.weight ≡ self.now.w }
    {
        Coordinate {
            floor: self.floor_y,
            rest: self.y,
            weight: self.w,
        }
    }
}
