// The corners of a boundary that lie inside its segments.
use crate::sorted_boundary::{BoundaryEdge, SortedBoundary, edge_order, turn_at};
use crate::stop::Stop;
use ember_algebra::Sign;
use std::alloc::Global;

/// A corner inside a segment: the number of a segment that starts at the corner, and of the segment
/// that runs through it.
#[derive(Clone, Copy)]
pub struct Inside {
    pub corner: usize,
    pub edge: usize,
}

// The state of a sweep that makes no triangles: the edges that the line crosses, from below, and
// what was found. An edge that runs through a corner is cut there, so that the sweep can go on.
#[derive(Drop)]
struct Search<'a> {
    alloc: Global,
    boundary: &'a SortedBoundary,
    status: Vec<BoundaryEdge>,
    found: Vec<Inside>,
}

/// All corners inside segments.
pub fn corners_inside(alloc: Global, boundary: &SortedBoundary) -> Result<Vec<Inside>, Stop> {
    let mut search = Search {
        alloc,
        boundary,
        status: Vec::new(alloc),
        found: Vec::new(alloc),
    };
    for place in 0..boundary.places.len() {
        search.pass(place)?;
    }
    Ok(search.found)
}

impl Search<'_> {
    // Whether the edge ends at the place or runs through it.
    fn is_at(&self, edge: &BoundaryEdge, place: usize) -> bool {
        edge.right == place
            || match turn_at(&self.boundary.places, edge.left, edge.right, place) {
                Sign::Zero => true,
                Sign::Neg | Sign::Pos => false,
            }
    }

    // The index after the edges at the place; the first of these would be at `first`.
    fn behind_edges_at(&self, first: usize, place: usize) -> usize {
        let mut behind = first;
        for edge in self.status.get(first..).unwrap_or(&[]) {
            if !self.is_at(edge, place) {
                break;
            }
            behind = behind.saturating_add(1);
        }
        behind
    }

    // Goes on to the place: edges end there, are cut, and start.
    fn pass(&mut self, place: usize) -> Result<(), Stop> {
        let boundary = self.boundary;
        let first = self
            .status
            .partition_point(|edge| boundary.is_below(edge, place));
        let behind = self.behind_edges_at(first, place);
        let (start, end) = boundary.edges_from(place);
        let mut starting = Vec::new(self.alloc);
        starting.extend_from_slice(boundary.edges.get(start..end).unwrap_or(&[]))?;
        for index in first..behind {
            self.cut(index, place, &mut starting)?;
        }
        starting.sort_unstable_by(|e, f| edge_order(&boundary.places, e, f));
        self.exchange(first, behind, starting)
    }

    // Cuts the edge with this index in the status at the place, unless it ends there.
    fn cut(
        &mut self,
        index: usize,
        place: usize,
        starting: &mut Vec<BoundaryEdge>,
    ) -> Result<(), Stop> {
        let edge = *self.status.get(index).ok_or(Stop::NotFound)?;
        if edge.right == place {
            return Ok(());
        }
        let corner = self.boundary.places.get(place).ok_or(Stop::NotFound)?;
        self.found.push(Inside {
            corner: corner.segment,
            edge: edge.segment,
        })?;
        starting.push(BoundaryEdge {
            left: place,
            right: edge.right,
            is_floor: edge.is_floor,
            segment: edge.segment,
        })?;
        Ok(())
    }

    // Replaces the edges at the place by those that start there.
    fn exchange(
        &mut self,
        first: usize,
        behind: usize,
        starting: Vec<BoundaryEdge>,
    ) -> Result<(), Stop> {
        if behind < first || self.status.len() < behind {
            return Err(Stop::NotFound);
        }
        self.status.splice(first..behind, starting)?;
        Ok(())
    }
}
