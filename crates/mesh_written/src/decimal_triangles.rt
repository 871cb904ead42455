// Triangles of decimals.
ghost use Rattle.std.specs.Prelude.{◌≡◌, ◌<◌, ◌≤◌, true, length, IfOk, IfErr, OnOk};
ghost use Rattle.std.specs.List.{list_all};
ghost use Rattle.mesh_grid.specs.Snap.Steps.{IsStep};
ghost use Rattle.mesh_write.specs.Vertices.Vertices.{same_point, point_at};
ghost use Rattle.mesh_written.specs.Decimals.{IsDecimalFault};
ghost use Rattle.mesh_written.specs.DecimalTriangles.{triangle_at, vanishes, HasDecimalOrigins, HasDecimalPlanes, HasDecimalTriangles, IfOver, IsMeshOver, IsMeshWith};
ghost use Rattle.mesh_written.specs.Triangles.{has_corners};

use crate::decimal_points::decimal_points;
use crate::fault::PlaceFault;
use mesh_certificate::Triangle;
use mesh_grid::{GridStep, Offset};
use mesh_point::SpacePoint;
use mesh_write::{DecimalPoint, DecimalTriangle, IndexedMesh};
use std::alloc::{AllocError, Global};

fn point_at(points: &[DecimalPoint], number: u32) -> DecimalPoint
    requires { number < length points.now }
    ensures { result ≡ point_at points.now number }
{
    points[number as usize]
}

fn triangle_at(points: &[DecimalPoint], t: &Triangle) -> DecimalTriangle
    requires { has_corners (length points.now) t.now ≡ true }
    ensures { result ≡ triangle_at points.now t.now }
{
    DecimalTriangle {
        a: point_at(points, t.first.start),
        b: point_at(points, t.second.start),
        c: point_at(points, t.third.start),
    }
}

fn is_same_point(p: &DecimalPoint, q: &DecimalPoint) -> bool
    ensures { result ≡ same_point p.now q.now }
{
    *p == *q
}

// Whether two corners of the triangle are equal.
fn vanishes(t: &DecimalTriangle) -> bool
    ensures { result ≡ vanishes t.now }
{
    is_same_point(&t.a, &t.b) || (is_same_point(&t.b, &t.c) || is_same_point(&t.c, &t.a))
}

/// Triangles of decimals, and for each the number of its plane and the triangle that was rounded.
#[derive(Drop)]
pub struct DecimalMesh {
    pub mesh: IndexedMesh,
    pub planes: Vec<u32>,
    /// The indices of the triangles that were rounded.
    pub origins: Vec<usize>,
}

// Adds the triangle with this index, unless two of its corners became equal.
fn push_kept(
    written: &mut DecimalMesh,
    points: &[DecimalPoint],
    triangle: &Triangle,
    index: usize,
) -> Result<(), AllocError>
    requires { has_corners (length points.now) triangle.now ≡ true }
    ensures { IfOver points.now index written.old (λ ts.
        OnOk result (IsMeshWith points.now ts triangle.now written.new)) }
{
    let rounded = triangle_at(points, triangle);
    if vanishes(&rounded) {
        return Ok(());
    }
    written.mesh.push(&rounded)?;
    written.planes.push(triangle.first.plane)?;
    written.origins.push(index)?;
    Ok(())
}

fn mesh_over(
    alloc: Global,
    points: &[DecimalPoint],
    triangles: &[Triangle],
) -> Result<DecimalMesh, AllocError>
    requires { list_all (has_corners (length points.now)) triangles.now ≡ true }
    ensures { IfOk result (IsMeshOver points.now triangles.now) }
{
    let mut written = DecimalMesh {
        mesh: IndexedMesh::new(alloc),
        planes: Vec::new(alloc),
        origins: Vec::new(alloc),
    };
    for (index, triangle) in triangles.iter().enumerate() {
        push_kept(&mut written, points, triangle, index)?;
    }
    Ok(written)
}

/// The triangles as files with decimals have them: each coordinate of a corner is the decimal of at
/// most `places` places that is nearest to it in the user's unit, and triangles with two corners
/// that became equal are left out. The others keep their order, also those without an area. Equal
/// points are one vertex. Closed triangles stay closed (see
/// [`decimal_triangles_are_closed`](crate::decimal_triangles_are_closed)).
///
/// `corners` is the table to which the triangles' numbers refer. Each corner of a triangle is in
/// the table, as of certified triangles. There are at most 17 places. A corner of the table that is
/// 10^21 or more from zero is a fault.
pub fn decimal_mesh(
    alloc: Global,
    corners: &[SpacePoint],
    triangles: &[Triangle],
    step: &GridStep,
    offset: &Offset,
    places: u32,
) -> Result<DecimalMesh, PlaceFault>
    requires step { IsStep step.now }
    requires corners { list_all (has_corners (length corners.now)) triangles.now ≡ true }
    requires places { places ≤ 17 }
    ensures mesh { IfOk result
        (HasDecimalTriangles places step.now offset.now corners.now triangles.now) }
    ensures planes { IfOk result
        (HasDecimalPlanes places step.now offset.now corners.now triangles.now) }
    ensures origins { IfOk result
        (HasDecimalOrigins places step.now offset.now corners.now triangles.now) }
    ensures fault { IfErr result (IsDecimalFault step.now offset.now corners.now) }
{
    let points = decimal_points(alloc, corners, step, offset, places)?;
    let written = mesh_over(alloc, &points, triangles)?;
    Ok(written)
}
