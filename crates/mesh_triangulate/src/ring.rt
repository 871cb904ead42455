// Boundaries of three or four segments that are one ring.
ghost use Rattle.std.specs.Prelude.{◌≡◌, List, All, IfOk, IfSome};
ghost use Rattle.mesh_certificate.specs.declared.certificate.segment.Segment.{Segment};
ghost use Rattle.mesh_triangulate.specs.Corners.{IsCornerOf, AreCornersOf, HasCornersOf};

use crate::view::{View, is_left_turn};
use ember_model::{OutOfMemory, Plane};
use mesh_certificate::Segment;
use mesh_point::{Coordinate, PlanePoint, SpacePoint};
use std::alloc::Global;

// Where a segment that starts at the corner ends.
fn corner_after(boundary: &[Segment], corner: u32) -> Option<u32>
    ensures { IfSome result (λ next. IsCornerOf boundary.now next) }
{
    for s in boundary {
        if s.start == corner {
            return Some(s.end);
        }
    }
    None
}

fn triangle_of(boundary: &[Segment]) -> Option<[u32; 3]>
    ensures { IfSome result (λ triangle. HasCornersOf boundary.now triangle) }
{
    let a = corner_after(boundary, boundary.first()?.start)?;
    let b = corner_after(boundary, a)?;
    let c = corner_after(boundary, b)?;
    let is_ring = corner_after(boundary, c)? == a && a != b && b != c && c != a;
    if boundary.len() != 3 || !is_ring {
        return None;
    }
    Some([a, b, c])
}

// The corners of a ring in turn.
#[derive(Clone, Copy)]
struct Quadrangle {
    a: u32,
    b: u32,
    c: u32,
    d: u32,
}

fn quadrangle_of(boundary: &[Segment]) -> Option<Quadrangle>
    ensures { IfSome result (λ q. AreCornersOf boundary.now q.a q.b q.c q.d) }
{
    let a = corner_after(boundary, boundary.first()?.start)?;
    let b = corner_after(boundary, a)?;
    let c = corner_after(boundary, b)?;
    let d = corner_after(boundary, c)?;
    let is_closed = corner_after(boundary, d)? == a;
    let is_simple = a != b && b != c && c != d && d != a && a != c && b != d;
    if boundary.len() != 4 || !is_closed || !is_simple {
        return None;
    }
    Some(Quadrangle { a, b, c, d })
}

fn seen_points(view: &View, corners: &[SpacePoint], q: &Quadrangle) -> Option<[PlanePoint; 4]> {
    Some([
        view.seen(corners.get(q.a as usize)?),
        view.seen(corners.get(q.b as usize)?),
        view.seen(corners.get(q.c as usize)?),
        view.seen(corners.get(q.d as usize)?),
    ])
}

// A coordinate in 65536ths, rounded towards 0.
fn in_parts(c: &Coordinate) -> i128 {
    let rest = c.rest.saturating_mul(65536);
    let part = rest.checked_div(c.weight).unwrap_or(0);
    let is_whole = part.saturating_mul(c.weight) == rest;
    let below = (c.floor as i128 * 65536).saturating_add(part);
    if c.floor < 0 && !is_whole {
        below.saturating_add(1)
    } else {
        below
    }
}

// How far two points are from each other along both axes together, in 65536ths.
fn distance(p: &PlanePoint, q: &PlanePoint) -> u128 {
    let along_x = in_parts(&p.right()).abs_diff(in_parts(&q.right()));
    let along_y = in_parts(&p.up()).abs_diff(in_parts(&q.up()));
    along_x.saturating_add(along_y)
}

// Whether the diagonal from `p` to `r` cuts the quadrilateral into two triangles that turn left.
fn are_halves(p: &PlanePoint, q: &PlanePoint, r: &PlanePoint, s: &PlanePoint) -> bool {
    is_left_turn(p, q, r) && is_left_turn(p, r, s)
}

// Whether the better diagonal is the one between the first and the third point, or the other one,
// or neither lies inside: the shorter one of those that do.
fn is_first_better(points: &[PlanePoint; 4]) -> Option<bool> {
    let [p, q, r, s] = points;
    let first = are_halves(p, q, r, s);
    if first && are_halves(q, r, s, p) {
        return Some(distance(p, r) <= distance(q, s));
    }
    (first || are_halves(q, r, s, p)).then_some(first)
}

// The halves beside the diagonal between the first and the third corner, or beside the other one.
fn halves(q: &Quadrangle, is_first: bool) -> [[u32; 3]; 2]
    ensures { (ss : List Segment) → AreCornersOf ss q.now.a q.now.b q.now.c q.now.d → All (HasCornersOf ss) result }
{
    if is_first {
        return [[q.a, q.b, q.c], [q.a, q.c, q.d]];
    }
    [[q.b, q.c, q.d], [q.b, q.d, q.a]]
}

fn better_halves(plane: &Plane, corners: &[SpacePoint], q: &Quadrangle) -> Option<[[u32; 3]; 2]>
    ensures { IfSome result (λ halves. (ss : List Segment) →
        AreCornersOf ss q.now.a q.now.b q.now.c q.now.d → All (HasCornersOf ss) halves) }
{
    let points = seen_points(&View::of(plane), corners, q)?;
    let is_first = is_first_better(&points)?;
    Some(halves(q, is_first))
}

/// The triangles of a ring of three or four corners; none for other boundaries.
pub fn ring_triangles(
    alloc: Global,
    plane: &Plane,
    corners: &[SpacePoint],
    boundary: &[Segment],
) -> Result<Option<Vec<[u32; 3]>>, OutOfMemory>
    ensures { IfOk result (λ cut. IfSome cut (λ triangles. All (HasCornersOf boundary.now) triangles.items)) }
{
    if let Some(triangle) = triangle_of(boundary) {
        let only = Vec::from_array(alloc, [triangle])?;
        return Ok(Some(only));
    }
    let Some(quadrangle) = quadrangle_of(boundary) else {
        return Ok(None);
    };
    let Some(two) = better_halves(plane, corners, &quadrangle) else {
        return Ok(None);
    };
    let both = Vec::from_array(alloc, two)?;
    Ok(Some(both))
}
