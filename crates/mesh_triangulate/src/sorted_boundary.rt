// A boundary in the order of the sweep.
use crate::stop::Stop;
use crate::view::{View, sweep_order};
use ember_algebra::Sign;
use ember_model::Plane;
use mesh_certificate::Segment;
use mesh_point::{PlanePoint, SpacePoint, turn};
use std::alloc::Global;
use std::cmp::Ordering;
use std::collections::{HashMap, HashSet};

/// A corner of the boundary: its point, and a segment that starts there.
#[derive(Clone, Copy)]
pub struct BoundaryCorner {
    pub point: PlanePoint,
    pub segment: usize,
}

/// A segment of the boundary between the places of its ends. Above a floor is the plane's part,
/// below a ceiling.
#[derive(Clone, Copy)]
pub struct BoundaryEdge {
    pub left: usize,
    pub right: usize,
    pub is_floor: bool,
    pub segment: usize,
}

/// The corners of a boundary from left to right, and its edges by their left ends, those of one
/// left end from below.
#[derive(Drop)]
pub struct SortedBoundary {
    pub places: Vec<BoundaryCorner>,
    pub edges: Vec<BoundaryEdge>,
}

impl SortedBoundary {
    /// The boundary with its corners sorted from left to right, as seen from the plane's front.
    /// `NotFound` if a corner has no point, or if no segment starts there.
    pub fn of(
        alloc: Global,
        plane: &Plane,
        corners: &[SpacePoint],
        boundary: &[Segment],
    ) -> Result<SortedBoundary, Stop> {
        let places = places_of(alloc, &View::of(plane), corners, boundary)?;
        let ranks = ranks_of(alloc, boundary, &places)?;
        let edges = edges_of(alloc, boundary, &places, &ranks)?;
        Ok(SortedBoundary { places, edges })
    }

    /// The range of the edges whose left end is the place: the index of the first, and the index
    /// after the last.
    pub fn edges_from(&self, place: usize) -> (usize, usize) {
        (
            self.edges.partition_point(|e| e.left < place),
            self.edges.partition_point(|e| e.left <= place),
        )
    }

    /// Whether the edge passes below the place.
    pub fn is_below(&self, edge: &BoundaryEdge, place: usize) -> bool {
        edge.right != place && turns_left(&self.places, edge.left, edge.right, place)
    }
}

/// The turn of the points of three places.
pub fn turn_at(places: &[BoundaryCorner], a: usize, b: usize, c: usize) -> Sign {
    let (Some(a), Some(b), Some(c)) = (places.get(a), places.get(b), places.get(c)) else {
        return Sign::Zero;
    };
    turn(&a.point, &b.point, &c.point)
}

/// Whether the places with these indices turn left. They don't if they lie on one line, or if an
/// index is out of range.
pub fn turns_left(places: &[BoundaryCorner], a: usize, b: usize, c: usize) -> bool {
    match turn_at(places, a, b, c) {
        Sign::Pos => true,
        Sign::Neg | Sign::Zero => false,
    }
}

fn places_of(
    alloc: Global,
    view: &View,
    corners: &[SpacePoint],
    boundary: &[Segment],
) -> Result<Vec<BoundaryCorner>, Stop> {
    let mut seen = HashSet::new(alloc);
    let mut places = Vec::new(alloc);
    for (segment, s) in boundary.iter().enumerate() {
        if seen.insert(s.start)? {
            let corner = corners.get(s.start as usize).ok_or(Stop::NotFound)?;
            let point = view.seen(corner);
            places.push(BoundaryCorner { point, segment })?;
        }
    }
    places.sort_unstable_by(|p, q| sweep_order(&p.point, &q.point));
    Ok(places)
}

fn ranks_of(
    alloc: Global,
    boundary: &[Segment],
    places: &[BoundaryCorner],
) -> Result<HashMap<u32, usize>, Stop> {
    let mut ranks = HashMap::new(alloc);
    for (rank, place) in places.iter().enumerate() {
        let s = boundary.get(place.segment).ok_or(Stop::NotFound)?;
        ranks.insert(s.start, rank)?;
    }
    Ok(ranks)
}

fn edges_of(
    alloc: Global,
    boundary: &[Segment],
    places: &[BoundaryCorner],
    ranks: &HashMap<u32, usize>,
) -> Result<Vec<BoundaryEdge>, Stop> {
    let mut edges = Vec::with_capacity(alloc, boundary.len())?;
    for (segment, s) in boundary.iter().enumerate() {
        let start = *ranks.get(&s.start).ok_or(Stop::NotFound)?;
        let end = *ranks.get(&s.end).ok_or(Stop::NotFound)?;
        edges.push(BoundaryEdge {
            left: start.min(end),
            right: start.max(end),
            is_floor: start < end,
            segment,
        })?;
    }
    edges.sort_unstable_by(|e, f| edge_order(places, e, f));
    Ok(edges)
}

/// The order of edges by their left ends, and of those with one left end from below. Two opposite
/// edges bound a slit: the part below it has the ceiling, and the part above it the floor.
pub fn edge_order(
    places: &[BoundaryCorner],
    first: &BoundaryEdge,
    second: &BoundaryEdge,
) -> Ordering {
    match first.left.cmp(&second.left) {
        Ordering::Equal => match turn_at(places, first.left, first.right, second.right) {
            Sign::Pos => Ordering::Less,
            Sign::Zero => first.is_floor.cmp(&second.is_floor),
            Sign::Neg => Ordering::Greater,
        },
        order => order,
    }
}
