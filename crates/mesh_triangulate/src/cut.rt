// The triangles of a plane's part.
ghost use Rattle.std.specs.Prelude.{◌≡◌, All, IfOk, IfSome, slice_get};
ghost use Rattle.mesh_triangulate.specs.Corners.{IsCornerOf, HasCornersOf};
ghost use Rattle.mesh_triangulate.specs.Cuts.{IsCutOf, IsTouchOf};

use crate::ring::ring_triangles;
use crate::sorted_boundary::{BoundaryCorner, SortedBoundary};
use crate::stop::Stop;
use crate::sweep::swept;
use crate::touches::{Inside, corners_inside};
use ember_model::{OutOfMemory, Plane};
use mesh_certificate::Segment;
use mesh_point::SpacePoint;
use std::alloc::{AllocError, Global};

/// A corner of a boundary inside a segment of it on the line: split the line there first.
#[derive(Clone, Copy, Debug, PartialEq, Eq)]
pub struct Touch {
    pub corner: u32,
    pub line: u32,
}

/// What becomes of the part of a plane inside a boundary.
#[derive(Drop)]
pub enum Triangulation {
    /// The corners of triangles.
    Triangles(Vec<[u32; 3]>),
    /// All touches of the boundary, of which there is one.
    Touches(Vec<Touch>),
    /// A corner isn't in the table or only ends segments, or the boundary surrounds no part.
    NotFound,
}

fn segment_at(boundary: &[Segment], number: usize) -> Option<Segment>
    ensures { result ≡ slice_get boundary.now number }
{
    boundary.get(number).copied()
}

// Where the segment starts.
fn start_of(boundary: &[Segment], segment: usize) -> Option<u32>
    ensures { IfSome result (λ corner. IsCornerOf boundary.now corner) }
{
    let Some(s) = segment_at(boundary, segment) else {
        return None;
    };
    Some(s.start)
}

fn corner_at(boundary: &[Segment], places: &[BoundaryCorner], place: usize) -> Option<u32>
    ensures { IfSome result (λ corner. IsCornerOf boundary.now corner) }
{
    start_of(boundary, places.get(place)?.segment)
}

fn corners_at(
    boundary: &[Segment],
    places: &[BoundaryCorner],
    triangle: &[usize; 3],
) -> Option<[u32; 3]>
    ensures { IfSome result (λ triangle. HasCornersOf boundary.now triangle) }
{
    let [a, b, c] = *triangle;
    let a = corner_at(boundary, places, a)?;
    let b = corner_at(boundary, places, b)?;
    let c = corner_at(boundary, places, c)?;
    Some([a, b, c])
}

fn named(
    alloc: Global,
    boundary: &[Segment],
    places: &[BoundaryCorner],
    triangles: &[[usize; 3]],
) -> Result<Vec<[u32; 3]>, Stop>
    ensures { IfOk result (λ named. All (HasCornersOf boundary.now) named.items) }
{
    let mut named = Vec::with_capacity(alloc, triangles.len())?;
    for triangle in triangles {
        let Some(corners) = corners_at(boundary, places, triangle) else {
            return Err(Stop::NotFound);
        };
        named.push(corners)?;
    }
    Ok(named)
}

// The touch of a corner inside a segment.
fn touch_of(boundary: &[Segment], inside: &Inside) -> Option<Touch>
    ensures { IfSome result (IsTouchOf boundary.now) }
{
    let Some(s) = segment_at(boundary, inside.corner) else {
        return None;
    };
    let Some(e) = segment_at(boundary, inside.edge) else {
        return None;
    };
    if e.start == s.start || e.end == s.start {
        return None;
    }
    Some(Touch {
        corner: s.start,
        line: e.line,
    })
}

// The touches of all corners inside segments; there is one.
fn touches_of(alloc: Global, boundary: &[Segment], all: &[Inside]) -> Result<Vec<Touch>, Stop>
    ensures { IfOk result (λ touches. All (IsTouchOf boundary.now) touches.items) }
{
    let mut touches = Vec::with_capacity(alloc, all.len())?;
    for inside in all {
        let Some(touch) = touch_of(boundary, inside) else {
            return Err(Stop::NotFound);
        };
        touches.push(touch)?;
    }
    if touches.is_empty() {
        return Err(Stop::NotFound);
    }
    Ok(touches)
}

fn sweep_cut(
    alloc: Global,
    plane: &Plane,
    corners: &[SpacePoint],
    boundary: &[Segment],
) -> Result<Triangulation, Stop>
    ensures { IfOk result (IsCutOf boundary.now) }
{
    let sorted = SortedBoundary::of(alloc, plane, corners, boundary)?;
    match swept(alloc, &sorted) {
        Ok(triangles) => Ok(Triangulation::Triangles(named(
            alloc,
            boundary,
            &sorted.places,
            &triangles,
        )?)),
        Err(Stop::Touch) => {
            let inside = corners_inside(alloc, &sorted)?;
            Ok(Triangulation::Touches(touches_of(alloc, boundary, &inside)?))
        }
        Err(stop) => Err(stop),
    }
}

/// Cuts the part of the plane to the left of its boundary, seen from its front, into triangles that
/// go round counter-clockwise. The boundary is any number of closed rings of segments, which share
/// no more than corners, and of slits: two opposite segments with the part on both sides. No corner
/// is added. No segment may run through a corner: if some do, the result is all of these touches.
pub fn triangles_of(
    alloc: Global,
    plane: &Plane,
    corners: &[SpacePoint],
    boundary: &[Segment],
) -> Result<Triangulation, OutOfMemory>
    ensures { IfOk result (λ cut. IsCutOf boundary.now cut) }
{
    if let Some(triangles) = ring_triangles(alloc, plane, corners, boundary)? {
        return Ok(Triangulation::Triangles(triangles));
    }
    match sweep_cut(alloc, plane, corners, boundary) {
        Ok(cut) => Ok(cut),
        Err(Stop::OutOfMemory) => Err(AllocError),
        Err(Stop::NotFound) | Err(Stop::Touch) => Ok(Triangulation::NotFound),
    }
}
