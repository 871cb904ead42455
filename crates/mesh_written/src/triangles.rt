// Triangles of floats.
ghost use Rattle.std.specs.Prelude.{◌≡◌, ◌<◌, ◌∷◌, [], ◌++◌, true, if◌then◌else◌, map, length, IfOk, IfErr, OnOk};
ghost use Rattle.std.specs.List.{list_all};
ghost use Rattle.mesh_grid.specs.Snap.Steps.{IsStep};
ghost use Rattle.mesh_written.specs.Floats.{IsFloatFault};
ghost use Rattle.mesh_written.specs.Triangles.{point_at, has_corners, triangle_at, same_point, vanishes, kept, kept_numbers, AreWritten};
ghost use Rattle.mesh_written.specs.Closed.{AreRoundAndClosed, AreWrittenClosed};

use crate::fault::PlaceFault;
use crate::floats::float_points;
use crate::normals::normal_at;
use ember_model::Plane;
use mesh_certificate::Triangle;
use mesh_grid::{GridStep, Offset};
use mesh_point::SpacePoint;
use mesh_write::{FloatPoint, FloatTriangle};
use std::alloc::{AllocError, Global};

// Whether the numbers of the triangle's corners are below `count`.
fn has_corners(t: &Triangle, count: usize) -> bool
    ensures { result ≡ has_corners count t.now }
{
    (t.first.start as usize) < count
        && ((t.second.start as usize) < count && (t.third.start as usize) < count)
}

/// Whether all corners of the triangles are in a table of this many corners.
pub fn have_corners(triangles: &[Triangle], count: usize) -> bool
    ensures { result ≡ list_all (has_corners count) triangles.now }
{
    triangles.iter().all(|t| has_corners(t, count))
}

fn point_at(points: &[FloatPoint], number: u32) -> FloatPoint
    requires { number < length points.now }
    ensures { result ≡ point_at points.now number }
{
    points[number as usize]
}

fn triangle_at(planes: &[Plane], points: &[FloatPoint], t: &Triangle) -> FloatTriangle
    requires { has_corners (length points.now) t.now ≡ true }
    ensures { result ≡ triangle_at planes.now points.now t.now }
{
    FloatTriangle {
        normal: normal_at(planes, t.first.plane),
        a: point_at(points, t.first.start),
        b: point_at(points, t.second.start),
        c: point_at(points, t.third.start),
    }
}

// Whether the two points have the same bits.
fn is_same_point(p: &FloatPoint, q: &FloatPoint) -> bool
    ensures { result ≡ same_point p.now q.now }
{
    p.x == q.x && (p.y == q.y && p.z == q.z)
}

// Whether two corners of the triangle are equal.
fn vanishes(t: &FloatTriangle) -> bool
    ensures { result ≡ vanishes t.now }
{
    is_same_point(&t.a, &t.b) || (is_same_point(&t.b, &t.c) || is_same_point(&t.c, &t.a))
}

fn push_kept(written: &mut Vec<FloatTriangle>, t: FloatTriangle) -> Result<(), AllocError>
    ensures { OnOk result (written.new.items ≡ written.old.items ++ kept (t ∷ [])) }
{
    if vanishes(&t) {
        return Ok(());
    }
    written.push(t)?;
    Ok(())
}

/// The triangles over points that stand for the corners of their table: those of
/// [`float_triangles`](crate::float_triangles), where the points are the rounded corners.
pub fn triangles_over(
    alloc: Global,
    planes: &[Plane],
    points: &[FloatPoint],
    triangles: &[Triangle],
) -> Result<Vec<FloatTriangle>, AllocError>
    requires { list_all (has_corners (length points.now)) triangles.now ≡ true }
    ensures { IfOk result (λ ws. ws.items ≡ kept (map (triangle_at planes.now points.now) triangles.now)) }
{
    let mut written = Vec::with_capacity(alloc, triangles.len())?;
    for t in triangles {
        push_kept(&mut written, triangle_at(planes, points, t))?;
    }
    Ok(written)
}

// Appends the number of a triangle, unless it vanishes.
fn push_number(is_gone: bool, number: usize, kept: &mut Vec<usize>) -> Result<(), AllocError>
    ensures { OnOk result (kept.new.items ≡ kept.old.items ++ (if is_gone then [] else number ∷ [])) }
{
    if is_gone {
        return Ok(());
    }
    kept.push(number)?;
    Ok(())
}

/// Of these numbers, one for each triangle, those of the triangles that [`triangles_over`] keeps, in
/// order.
pub fn numbers_over(
    alloc: Global,
    points: &[FloatPoint],
    triangles: &[Triangle],
    numbers: &[usize],
) -> Result<Vec<usize>, AllocError>
    requires corners { list_all (has_corners (length points.now)) triangles.now ≡ true }
    requires one_each { length numbers.now ≡ length triangles.now }
    ensures { IfOk result (λ ns. ns.items ≡ kept_numbers (map (triangle_at [] points.now) triangles.now) numbers.now) }
{
    let mut kept = Vec::with_capacity(alloc, triangles.len())?;
    for (index, t) in triangles.iter().enumerate() {
        let is_gone = vanishes(&triangle_at(&[], points, t));
        push_number(is_gone, numbers[index], &mut kept)?;
    }
    Ok(kept)
}

/// The triangles as a binary STL has them: each coordinate of a corner is the binary32 nearest to
/// it in the user's unit, and triangles with two corners that became equal are left out. The others
/// keep their order, also those without an area. A corner is rounded once, so that triangles that
/// shared it still do. Closed triangles stay closed. A normal is that of the triangle's plane with
/// the length 1, or 0 if the table has no such plane.
///
/// `planes` and `corners` are the tables to which the triangles' numbers refer. Each corner of a
/// triangle is in the table, as of certified triangles. A corner of the table that is 2^128 - 2^103
/// or more from zero is a fault.
pub fn float_triangles(
    alloc: Global,
    planes: &[Plane],
    corners: &[SpacePoint],
    triangles: &[Triangle],
    step: &GridStep,
    offset: &Offset,
) -> Result<Vec<FloatTriangle>, PlaceFault>
    requires step { IsStep step.now }
    requires corners { list_all (has_corners (length corners.now)) triangles.now ≡ true }
    ensures written { IfOk result (λ ws.
        AreWritten step.now offset.now planes.now corners.now triangles.now ws.items) }
    ensures closed { IfOk result (λ ws. AreRoundAndClosed triangles.now → AreWrittenClosed ws.items) }
    ensures fault { IfErr result (IsFloatFault step.now offset.now corners.now) }
{
    let points = float_points(alloc, corners, step, offset)?;
    let written = triangles_over(alloc, planes, &points, triangles)?;
    Ok(written)
}
