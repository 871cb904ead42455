// How many triangles have no area, and how many are turned over.
ghost use Rattle.std.specs.Prelude.{◌≡◌, ◌+◌, ◌<◌, ◌^◌, true, All, length, Some};
ghost use Rattle.std.specs.List.{list_all};
ghost use Rattle.ember_algebra.specs.Sign.{sgn};
ghost use Rattle.ember_model.specs.Valid.{IsValidPlane};
ghost use Rattle.mesh_written.specs.Triangles as written;
ghost use Rattle.mesh_write.specs.Vertices.Vertices as vertices;
ghost use Rattle.mesh_effect.specs.Facing.Facings.{
  plane_at,
  has_no_area,
  is_turned_over,
  one_if,
  float_facing,
  decimal_facing,
  numbered_plane,
  AreFloatFacings,
  AreDecimalFacings,
};

use crate::facing::decimals::decimal_area_sign;
use crate::facing::facings::Facings;
use crate::facing::floats::float_area_sign;
use ember_algebra::Sign;
use ember_model::Plane;
use mesh_certificate::Triangle;
use mesh_write::{DecimalPoint, FloatPoint, IndexedTriangle};

const NO_PLANE: Plane = Plane {
    a: 0,
    b: 0,
    c: 0,
    d: 0,
};

// The plane with this number; what is no plane has the normal 0.
fn plane_at(planes: &[Plane], number: u32) -> Plane
    requires { All IsValidPlane planes.now }
    ensures value { result ≡ plane_at planes.now number }
    ensures valid { IsValidPlane result }
{
    match planes.get(number as usize) {
        Some(plane) => *plane,
        None => NO_PLANE,
    }
}

fn float_at(points: &[FloatPoint], number: u32) -> FloatPoint
    requires { number < length points.now }
    ensures { result ≡ written.point_at points.now number }
{
    points[number as usize]
}

// Whether the two points have the same bits.
fn is_same(p: &FloatPoint, q: &FloatPoint) -> bool
    ensures { result ≡ written.same_point p.now q.now }
{
    p.x == q.x && (p.y == q.y && p.z == q.z)
}

// The sign of the triangle's signed area; none if it vanishes.
fn float_facing(planes: &[Plane], points: &[FloatPoint], t: &Triangle) -> Option<Sign>
    requires planes { All IsValidPlane planes.now }
    requires corners { written.has_corners (length points.now) t.now ≡ true }
    ensures { result ≡ float_facing planes.now points.now t.now }
{
    let a = float_at(points, t.first.start);
    let b = float_at(points, t.second.start);
    let c = float_at(points, t.third.start);
    if is_same(&a, &b) || (is_same(&b, &c) || is_same(&c, &a)) {
        return None;
    }
    let plane = plane_at(planes, t.first.plane);
    Some(float_area_sign(&plane, &a, &b, &c))
}

fn decimal_at(points: &[DecimalPoint], number: usize) -> DecimalPoint
    ensures { result ≡ vertices.point_at points.now number }
{
    match points.get(number) {
        Some(point) => *point,
        None => DecimalPoint { x: 0, y: 0, z: 0 },
    }
}

fn decimal_facing(plane: &Plane, points: &[DecimalPoint], t: &IndexedTriangle) -> Option<Sign>
    requires { IsValidPlane plane.now }
    ensures { result ≡ decimal_facing plane.now points.now t.now }
{
    let a = decimal_at(points, t.a);
    let b = decimal_at(points, t.b);
    let c = decimal_at(points, t.c);
    Some(decimal_area_sign(plane, &a, &b, &c))
}

// The number of the plane of the triangle with this index.
fn numbered_plane(planes: &[Plane], numbers: &[u32], index: usize) -> Plane
    requires { All IsValidPlane planes.now }
    ensures value { result ≡ numbered_plane planes.now numbers.now index }
    ensures valid { IsValidPlane result }
{
    match numbers.get(index) {
        Some(number) => plane_at(planes, *number),
        None => NO_PLANE,
    }
}

fn has_no_area(facing: Option<Sign>) -> bool
    ensures { result ≡ has_no_area facing }
{
    match facing {
        Some(Sign::Zero) => true,
        Some(Sign::Neg | Sign::Pos) | None => false,
    }
}

fn is_turned_over(facing: Option<Sign>) -> bool
    ensures { result ≡ is_turned_over facing }
{
    match facing {
        Some(Sign::Neg) => true,
        Some(Sign::Zero | Sign::Pos) | None => false,
    }
}

// The counts with one more triangle.
fn counted(counts: Facings, facing: Option<Sign>) -> Facings
    requires without_area { counts.without_area < 2 ^ 63 }
    requires turned_over { counts.turned_over < 2 ^ 63 }
    ensures without_area { result.without_area ≡ counts.without_area + one_if (has_no_area facing) }
    ensures turned_over { result.turned_over ≡ counts.turned_over + one_if (is_turned_over facing) }
{
    Facings {
        without_area: counts.without_area + u64::from(has_no_area(facing)),
        turned_over: counts.turned_over + u64::from(is_turned_over(facing)),
    }
}

/// How many of the triangles that don't vanish have no area, and how many are turned over. A
/// triangle of a plane that isn't in the table has no area.
pub fn float_facings(planes: &[Plane], points: &[FloatPoint], triangles: &[Triangle]) -> Facings
    requires planes { All IsValidPlane planes.now }
    requires corners { list_all (written.has_corners (length points.now)) triangles.now ≡ true }
    ensures { AreFloatFacings planes.now points.now triangles.now result }
{
    let mut counts = Facings {
        without_area: 0,
        turned_over: 0,
    };
    for t in triangles {
        counts = counted(counts, float_facing(planes, points, t));
    }
    counts
}

/// The same for triangles over vertices of decimals. `numbers` has the number of each triangle's
/// plane, in the same order.
pub fn decimal_facings(
    planes: &[Plane],
    numbers: &[u32],
    vertices: &[DecimalPoint],
    triangles: &[IndexedTriangle],
) -> Facings
    requires planes { All IsValidPlane planes.now }
    ensures { AreDecimalFacings planes.now numbers.now vertices.now triangles.now result }
{
    let mut counts = Facings {
        without_area: 0,
        turned_over: 0,
    };
    for (i, t) in triangles.iter().enumerate() {
        let plane = numbered_plane(planes, numbers, i);
        counts = counted(counts, decimal_facing(&plane, vertices, t));
    }
    counts
}
