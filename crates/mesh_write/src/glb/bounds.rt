// The least and the greatest coordinates of corners.
ghost use Rattle.std.specs.Prelude.{◌≡◌, ◌<◌, All, length};
ghost use Rattle.mesh_write.specs.Glb.Bounds.{coordinates_of, corners_of, IsFinite, AreBounds};
ghost use Rattle.mesh_write.specs.Glb.Widened.{lesser, greater, lower, higher, widened};

use crate::stl::{FloatPoint, FloatTriangle};
use std::num::f32_from_bits_with_nan;

/// The coordinates of a point.
#[derive(Clone, Copy)]
pub struct FloatCoordinates {
    pub x: f32,
    pub y: f32,
    pub z: f32,
}

/// The least and the greatest coordinates of some points.
#[derive(Clone, Copy)]
pub struct Bounds {
    pub low: FloatCoordinates,
    pub high: FloatCoordinates,
}

fn coordinates_of(point: &FloatPoint) -> FloatCoordinates
    ensures { result ≡ coordinates_of point.now }
{
    FloatCoordinates {
        x: f32_from_bits_with_nan(point.x),
        y: f32_from_bits_with_nan(point.y),
        z: f32_from_bits_with_nan(point.z),
    }
}

fn lesser(a: f32, b: f32) -> f32
    ensures { result ≡ lesser a b }
{
    if b < a { b } else { a }
}

fn greater(a: f32, b: f32) -> f32
    ensures { result ≡ greater a b }
{
    if a < b { b } else { a }
}

fn lower(p: FloatCoordinates, q: FloatCoordinates) -> FloatCoordinates
    ensures { result ≡ lower p q }
{
    FloatCoordinates {
        x: lesser(p.x, q.x),
        y: lesser(p.y, q.y),
        z: lesser(p.z, q.z),
    }
}

fn higher(p: FloatCoordinates, q: FloatCoordinates) -> FloatCoordinates
    ensures { result ≡ higher p q }
{
    FloatCoordinates {
        x: greater(p.x, q.x),
        y: greater(p.y, q.y),
        z: greater(p.z, q.z),
    }
}

// The bounds of the points of these bounds and of the triangle.
fn widened(bounds: Bounds, triangle: &FloatTriangle) -> Bounds
    ensures { result ≡ widened bounds triangle.now }
{
    let a = coordinates_of(&triangle.a);
    let b = coordinates_of(&triangle.b);
    let c = coordinates_of(&triangle.c);
    Bounds {
        low: lower(lower(lower(bounds.low, a), b), c),
        high: higher(higher(higher(bounds.high, a), b), c),
    }
}

/// The bounds of the triangles' corners, if all coordinates are finite.
pub fn bounds_of(triangles: &[FloatTriangle]) -> Bounds
    requires { 0 < length triangles.now }
    ensures { All IsFinite (corners_of triangles.now) →
        AreBounds (corners_of triangles.now) result }
{
    let first = coordinates_of(&triangles[0].a);
    let mut bounds = Bounds {
        low: first,
        high: first,
    };
    for triangle in triangles {
        bounds = widened(bounds, triangle);
    }
    bounds
}
