// Edges that lead around a convex polygon.
ghost use Rattle.std.specs.Prelude.{◌≡◌, ◌↔◌, ◌-ℤ◌, ◌*ℤ◌, IsTrue, IfOk, map};
ghost use Rattle.ember_model.specs.Limits.{direction_limit, valid_normal_limit};
ghost use Rattle.ember_algebra.specs.Sign.{is_positive};
ghost use Rattle.ember_algebra.specs.Size.{Small};
ghost use Rattle.ember_model.specs.Valid.{IsValidPlane};
ghost use Rattle.ember_poly.specs.Rings.{IsConvexRing, IsCornerOf, IsSideChain, orientation};
ghost use Rattle.mesh_solid.specs.Outline.Sides.{side_at};

use crate::outline::sides::{is_on, lies_behind, start_behind};
use ember_algebra::{Sign, sign_of};
use ember_model::{OutOfMemory, Plane};
use ember_reread::CorneredEdge;
use std::alloc::Global;

// The determinant `a d - b c` of entries of normals. 2251799679467522 is 2 * 33554431^2.
fn minor(a: i64, b: i64, c: i64, d: i64) -> i64
    requires small_a { Small valid_normal_limit a }
    requires small_b { Small valid_normal_limit b }
    requires small_c { Small valid_normal_limit c }
    requires small_d { Small valid_normal_limit d }
    ensures value { result ≡ a *ℤ d -ℤ b *ℤ c }
    ensures small { Small direction_limit result }
{
    a * d - b * c
}

// The determinant of the normals.
fn orientation(n: &Plane, g: &Plane, h: &Plane) -> i128
    requires n { IsValidPlane n.now }
    requires g { IsValidPlane g.now }
    requires h { IsValidPlane h.now }
    ensures { result ≡ orientation n.now g.now h.now }
{
    let x = minor(g.b, g.c, h.b, h.c);
    let y = minor(g.c, g.a, h.c, h.a);
    let z = minor(g.a, g.b, h.a, h.b);
    n.a as i128 * x as i128 + n.b as i128 * y as i128 + n.c as i128 * z as i128
}

// Whether the normal of the second plane turns counter-clockwise to that of the third, seen from the
// front of the first.
fn turns(n: &Plane, g: &Plane, h: &Plane) -> bool
    requires n { IsValidPlane n.now }
    requires g { IsValidPlane g.now }
    requires h { IsValidPlane h.now }
    ensures { result ≡ is_positive (orientation n.now g.now h.now) }
{
    matches!(sign_of(orientation(n, g, h)), Sign::Pos)
}

// Whether the second edge starts where the first one ends, and turns from it counter-clockwise.
fn is_corner(support: &Plane, before: &CorneredEdge, edge: &CorneredEdge) -> bool
    requires { IsValidPlane support.now }
    ensures { IsTrue result ↔ IsCornerOf support.now before.now.plane (side_at edge.now) }
{
    if !is_on(support, &edge.start) {
        return false;
    }
    if !is_on(&before.plane, &edge.start) {
        return false;
    }
    if !is_on(&edge.plane, &edge.start) {
        return false;
    }
    turns(support, &before.plane, &edge.plane)
}

// Whether the first edge and the others, in order, are a part of the boundary of a convex polygon.
// Nothing is asked of the corner at which the first one starts.
fn is_chain(support: &Plane, first: &CorneredEdge, others: &[CorneredEdge]) -> bool
    requires { IsValidPlane support.now }
    ensures { IsTrue result ↔ IsSideChain support.now first.now.plane (map side_at others.now) }
{
    let mut before = *first;
    let mut rest = others;
    while let Some((edge, behind)) = rest.split_first() {
        if !is_corner(support, &before, edge) {
            return false;
        }
        if !start_behind(&before, behind) {
            return false;
        }
        if !lies_behind(&edge.start, behind) {
            return false;
        }
        before = *edge;
        rest = behind;
    }
    true
}

/// Whether the edges lead once around a convex polygon in the plane, counter-clockwise as seen from
/// its front. Fewer than three edges don't.
pub fn is_round(alloc: Global, support: &Plane, edges: &[CorneredEdge]) -> Result<bool, OutOfMemory>
    requires { IsValidPlane support.now }
    ensures { IfOk result (λ round. IsTrue round ↔
        IsConvexRing support.now (map side_at edges.now)) }
{
    let Some((first, others)) = edges.split_first() else {
        return Ok(false);
    };
    let Some((second, behind)) = others.split_first() else {
        return Ok(false);
    };
    if behind.is_empty() || !is_chain(support, first, others) {
        return Ok(false);
    }
    let mut turned = Vec::from_slice(alloc, behind)?;
    turned.push(*first)?;
    Ok(is_chain(support, second, &turned))
}
