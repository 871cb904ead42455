// The boxes around triangles.
ghost use Rattle.std.specs.Prelude.{◌≡◌, ◌⊎◌, ◌↔◌, ℤ, ◌*ℤ◌, ◌≤ℤ◌, IsTrue};
ghost use Rattle.mesh_sources.specs.Places.{coordinate, spot_at, spots_of};
ghost use Rattle.mesh_sources.specs.Spans.{IsSpanAround, IsSpanOver, IsBoxAround, IsBoxOver};
ghost use Rattle.mesh_sources.specs.Spans.{IsBoxWithin, HaveCommonBox};
ghost use Rattle.mesh_sources.specs.Places.{spots_in_order};
ghost use Rattle.mesh_certificate.specs.Certificate.Facing.{spot_of};

use crate::corners::Corners;
use crate::spans::{SpaceBox, Span};
use ember_model::{Axis, Corner, Tri};
use mesh_point::SpacePoint;

impl SpaceBox {
    /// Whether the boxes have a point in common.
    pub fn meets(&self, other: &SpaceBox) -> bool
        ensures { IsTrue result ↔ HaveCommonBox self.now other.now }
    {
        self.x.meets(&other.x) && self.y.meets(&other.y) && self.z.meets(&other.z)
    }

    /// The least box that has both.
    pub fn joined(&self, other: &SpaceBox) -> SpaceBox
        ensures one { IsBoxWithin self.now result }
        ensures other { IsBoxWithin other.now result }
    {
        SpaceBox {
            x: self.x.joined(&other.x),
            y: self.y.joined(&other.y),
            z: self.z.joined(&other.z),
        }
    }
}

fn least(a: i64, b: i64, c: i64) -> i64
    ensures below_a { result ≤ℤ a }
    ensures below_b { result ≤ℤ b }
    ensures below_c { result ≤ℤ c }
    ensures reached { (result ≡ a) ⊎ ((result ≡ b) ⊎ (result ≡ c)) }
{
    a.min(b).min(c)
}

fn greatest(a: i64, b: i64, c: i64) -> i64
    ensures above_a { a ≤ℤ result }
    ensures above_b { b ≤ℤ result }
    ensures above_c { c ≤ℤ result }
    ensures reached { (result ≡ a) ⊎ ((result ≡ b) ⊎ (result ≡ c)) }
{
    a.max(b).max(c)
}

fn coordinate(c: &Corner, k: Axis) -> i64
    ensures { result ≡ coordinate k (spot_at c.now) }
{
    match k {
        Axis::X => c.x as i64,
        Axis::Y => c.y as i64,
        Axis::Z => c.z as i64,
    }
}

fn span_around(t: &Tri, k: Axis) -> Span
    ensures { IsSpanAround k result (spots_in_order t.now) }
{
    let (a, b, c) = (
        coordinate(&t.a, k),
        coordinate(&t.b, k),
        coordinate(&t.c, k),
    );
    Span {
        low: least(a, b, c),
        high: greatest(a, b, c),
    }
}

/// The box around a triangle of the scene.
pub fn box_around(t: &Tri) -> SpaceBox
    ensures { IsBoxAround result t.now }
{
    SpaceBox {
        x: span_around(t, Axis::X),
        y: span_around(t, Axis::Y),
        z: span_around(t, Axis::Z),
    }
}

// The greatest whole number that isn't above the coordinate.
fn floor_along(p: &SpacePoint, k: Axis) -> i64
    ensures { (z : ℤ) → (z ≤ℤ result) ↔ ((p.now.w *ℤ z) ≤ℤ coordinate k (spot_of p.now)) }
{
    p.along(k).floor as i64
}

// The least whole number that isn't below the coordinate.
fn ceil_along(p: &SpacePoint, k: Axis) -> i64
    ensures { (z : ℤ) → (result ≤ℤ z) ↔ (coordinate k (spot_of p.now) ≤ℤ (p.now.w *ℤ z)) }
{
    let at = p.along(k);
    let floor = at.floor as i64;
    if at.rest == 0 { floor } else { floor + 1 }
}

fn span_over(corners: &Corners, k: Axis) -> Span
    ensures { IsSpanOver k result (spots_of corners.now) }
{
    let Corners { u, v, w } = corners;
    Span {
        low: least(ceil_along(u, k), ceil_along(v, k), ceil_along(w, k)),
        high: greatest(floor_along(u, k), floor_along(v, k), floor_along(w, k)),
    }
}

/// The whole points of the box around three points.
pub fn box_over(corners: &Corners) -> SpaceBox
    ensures { IsBoxOver result (spots_of corners.now) }
{
    SpaceBox {
        x: span_over(corners, Axis::X),
        y: span_over(corners, Axis::Y),
        z: span_over(corners, Axis::Z),
    }
}
