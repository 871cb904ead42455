// The order of corners along a line.
use crate::fault::TrianglesFault;
use crate::split::Split;
use ember_model::Axis;
use mesh_certificate::{LineKey, Segment};
use mesh_point::{Coordinate, SpacePoint};
use std::alloc::Global;

// Where a corner is along an axis, and its index among the corners.
#[derive(Clone, Copy)]
struct Along {
    at: Coordinate,
    index: usize,
}

/// The corners of a line, in order of their numbers, each with its place along the line.
#[derive(Drop)]
pub struct CornerOrder {
    corners: Vec<u32>,
    places: Vec<usize>,
    points: Vec<Along>,
}

// An axis along which the points of the line differ.
fn axis_of(line: &LineKey) -> Axis {
    if line.dx != 0 {
        Axis::X
    } else if line.dy != 0 {
        Axis::Y
    } else {
        Axis::Z
    }
}

impl CornerOrder {
    /// The order of no corners.
    pub fn empty(alloc: Global) -> CornerOrder {
        CornerOrder {
            corners: Vec::new(alloc),
            places: Vec::new(alloc),
            points: Vec::new(alloc),
        }
    }

    /// Becomes the order of the corners of these segments and splits, which are on the line.
    pub fn renew(
        &mut self,
        table: &[SpacePoint],
        line: &LineKey,
        segments: &[Segment],
        splits: &[Split],
    ) -> Result<(), TrianglesFault> {
        self.take_corners(segments, splits)?;
        self.sort_points(table, axis_of(line))?;
        self.put_places()
    }

    fn take_corners(
        &mut self,
        segments: &[Segment],
        splits: &[Split],
    ) -> Result<(), TrianglesFault> {
        self.corners.clear();
        for s in segments {
            self.corners.push(s.start)?;
            self.corners.push(s.end)?;
        }
        for s in splits {
            self.corners.push(s.corner)?;
        }
        self.corners.sort_unstable();
        self.corners.dedup();
        Ok(())
    }

    fn sort_points(&mut self, table: &[SpacePoint], axis: Axis) -> Result<(), TrianglesFault> {
        self.points.clear();
        for (index, corner) in self.corners.iter().enumerate() {
            let Some(point) = table.get(*corner as usize) else {
                return Err(TrianglesFault::UnknownCorner(*corner));
            };
            let at = point.along(axis);
            self.points.push(Along { at, index })?;
        }
        self.points.sort_unstable_by(|p, q| p.at.compare(&q.at));
        Ok(())
    }

    fn put_places(&mut self) -> Result<(), TrianglesFault> {
        self.places.clear();
        for _ in &self.corners {
            self.places.push(0)?;
        }
        for (place, p) in self.points.iter().enumerate() {
            if let Some(slot) = self.places.get_mut(p.index) {
                *slot = place;
            }
        }
        Ok(())
    }

    /// The place of one of the corners.
    pub fn place_of(&self, corner: u32) -> usize {
        let index = self.corners.partition_point(|c| *c < corner);
        match self.places.get(index) {
            Some(place) => *place,
            None => 0,
        }
    }
}
