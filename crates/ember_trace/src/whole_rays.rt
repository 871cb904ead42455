// The sides of a region, by whole rays. Only tests use this; the program traces a path (sides.rt).
ghost use Rattle.std.specs.Prelude.{◌≡◌, ◌≤◌, All, IfOk, length};
ghost use Rattle.ember_model.specs.Limits.{most_triangles};
ghost use Rattle.ember_algebra.specs.Size.{Small};
ghost use Rattle.ember_algebra.specs.Sign.{is_neg};
ghost use Rattle.ember_model.specs.Within.{IsTriWithin};
ghost use Rattle.ember_model.specs.Valid.{IsValidTri};
ghost use Rattle.ember_model.specs.Meshes.{HasMesh};
ghost use Rattle.ember_model.specs.Sides.{IsSides};
ghost use Rattle.ember_box.specs.Boxes.{Cell};
ghost use Rattle.ember_box.specs.Near.{near};
ghost use Rattle.ember_trace.specs.Boxed.{IsRegion, AreAllSides};
ghost use Rattle.ember_trace.specs.Paths.{inside_side};
ghost use Rattle.ember_trace.specs.Crossings.{is_pierced, ray_before, ray_after, AreRayCounts};

use crate::crossing_signs::{side_after, side_before, signed_crossing_along};
use crate::region_sides::Sides;
use crate::vertices::inside_side;
use ember_algebra::Sign;
use ember_law::add_count;
use ember_model::{
    Axis, OutOfMemory, Plane, Scene, Tri, Vector, edge_plane, main_axis, support_of,
};
use ember_poly::{Ring, corners, support};
use ember_width::{Narrow, Width};
use std::alloc::Global;

// The first three corners of a region.
#[derive(Drop)]
struct Corners<W: Width> {
    first: W::Point,
    second: W::Point,
    third: W::Point,
}

// The side of a plane on which the region's inside point lies.
fn side_of<W: Width>(p: &Plane, at: &Corners<W>) -> Sign
    requires { W.IsPlane p.now }
    ensures { result ≡ inside_side p.now (W.spot at.now.first) (W.spot at.now.second) (W.spot at.now.third) }
{
    inside_side::<W>(p, &at.first, &at.second, &at.third)
}

// Whether the region's inside point is behind the plane.
fn is_behind<W: Width>(p: &Plane, at: &Corners<W>) -> bool
    requires { W.IsPlane p.now }
    ensures { result ≡ is_neg (inside_side p.now (W.spot at.now.first) (W.spot at.now.second) (W.spot at.now.third)) }
{
    matches!(side_of(p, at), Sign::Neg)
}

// Whether the line through the inside point along the axis runs through the triangle.
fn is_pierced<W: Width>(t: &Tri, k: Axis, at: &Corners<W>) -> bool
    requires { IsTriWithin W.corner t.now }
    ensures { result ≡ is_pierced t.now k (W.spot at.now.first) (W.spot at.now.second) (W.spot at.now.third) }
{
    is_behind(&edge_plane(t, 0, k), at)
        && (is_behind(&edge_plane(t, 1, k), at) && is_behind(&edge_plane(t, 2, k), at))
}

// The crossing of the ray that begins directly before the inside point.
fn ray_before<W: Width>(t: &Tri, k: Axis, at: &Corners<W>) -> i32
    requires { IsTriWithin W.corner t.now }
    ensures value { result ≡ ray_before t.now k (W.spot at.now.first) (W.spot at.now.second) (W.spot at.now.third) }
    ensures small { Small 1 result }
{
    let n = support_of(t);
    if is_pierced(t, k, at) {
        signed_crossing_along(side_before(&n, k, side_of(&n, at)), &n, k)
    } else {
        0
    }
}

// The crossing of the ray that begins directly after the inside point.
fn ray_after<W: Width>(t: &Tri, k: Axis, at: &Corners<W>) -> i32
    requires { IsTriWithin W.corner t.now }
    ensures value { result ≡ ray_after t.now k (W.spot at.now.first) (W.spot at.now.second) (W.spot at.now.third) }
    ensures small { Small 1 result }
{
    let n = support_of(t);
    if is_pierced(t, k, at) {
        signed_crossing_along(side_after(&n, k, side_of(&n, at)), &n, k)
    } else {
        0
    }
}

// The sides of a region, from the crossings of whole rays along its main axis with all triangles:
// the winding numbers directly before and after it. Meshes are numbered from 1 to 64.
fn sides_by_rays_on<W: Width>(tris: &[Tri], r: &Ring<W>) -> Sides
    requires within { All (IsTriWithin W.corner) tris.now }
    requires numbered { All (HasMesh 64) tris.now }
    requires few { length tris.now ≤ most_triangles }
    ensures ray_counts { AreRayCounts tris.now r.now result }
    ensures sides { IsSides tris.now r.now result.before.counts result.after.counts }
    ensures before { All (Small (length tris.now)) result.before.counts }
    ensures after { All (Small (length tris.now)) result.after.counts }
{
    let k = main_axis(&support(r));
    let corners = corners(r);
    let at: Corners<W> = Corners {
        first: corners[0],
        second: corners[1],
        third: corners[2],
    };
    let mut before = Vector { counts: [0; 64] };
    let mut after = Vector { counts: [0; 64] };
    for t in tris {
        add_count(&mut before, t.mesh, ray_before(t, k, &at));
        add_count(&mut after, t.mesh, ray_after(t, k, &at));
    }
    Sides { before, after }
}

// The same on the narrow grid.
fn sides_by_rays(tris: &[Tri], r: &Ring) -> Sides
    requires valid { All IsValidTri tris.now }
    requires numbered { All (HasMesh 64) tris.now }
    requires few { length tris.now ≤ most_triangles }
    ensures ray_counts { AreRayCounts tris.now r.now result }
    ensures sides { IsSides tris.now r.now result.before.counts result.after.counts }
    ensures before { All (Small (length tris.now)) result.before.counts }
    ensures after { All (Small (length tris.now)) result.after.counts }
{
    sides_by_rays_on::<Narrow>(tris, r)
}

/// The sides of a region, from the crossings of whole rays along its main axis with all triangles of
/// the scene: the winding numbers directly before and after it. Only tests call this. It never fails.
pub fn sides_whole(_alloc: Global, s: &Scene, r: &Ring) -> Result<Sides, OutOfMemory>
    ensures ray_counts { IfOk result (λ x. AreRayCounts s.now.tris r.now x) }
    ensures sides { IfOk result (λ x. IsSides s.now.tris r.now x.before.counts x.after.counts) }
    ensures only { IfOk result (λ x. (c : Cell) → IsRegion (near s.now.tris c) c r.now →
        AreAllSides s.now.tris r.now x) }
    ensures before { IfOk result (λ x. All (Small (length s.now.tris)) x.before.counts) }
    ensures after { IfOk result (λ x. All (Small (length s.now.tris)) x.after.counts) }
{
    Ok(sides_by_rays(s.tris.items(), r))
}
