// Rings and triangles that meet.
ghost use Rattle.std.specs.Prelude.{◌≡◌, ◌↔◌, IsTrue, true, false, All, ℤ, pos, ◌<ℤ◌};
ghost use Rattle.ember_algebra.specs.Sign.{sgn, is_positive};
ghost use Rattle.ember_model.specs.Within.{IsTriWithin};
ghost use Rattle.ember_model.specs.Planes.{value_at};
ghost use Rattle.ember_model.specs.Faces.{Meets, Somewhere, is_flat, face_of};
ghost use Rattle.ember_model.specs.ClearTest.{face_with, none_positive};
ghost use Rattle.ember_width.specs.Broad.{IsBroadPlane, most_floor};
ghost use Rattle.ember_poly.specs.Cuts.{HasInside};
ghost use Rattle.ember_poly.specs.Chords.{IsOnOneSide, IsCrossing, IsOverlap, IsChordPart, IsLine, IsOpen, HasVertexWithin};

use crate::passage::{classify, find_passage};
use crate::reach_and_cut::Reach;
use crate::reaching::reach;
use crate::ring;
use crate::ring::Ring;
use ember_algebra::Sign;
use ember_model::{Plane, Tri, main_edges, support_of};
use ember_width::{Width, value_at_corner};

// What a plane leaves of the chord between two points.
#[derive(Clone, Copy, PartialEq, Eq)]
enum ChordPart {
    // All of it.
    Whole,
    // A part of it, up to a point between the two.
    Split,
    // No point between the two.
    Empty,
}

// What a plane leaves of the chord, by its signs at the two points.
fn chord_part_of(y: Sign, z: Sign) -> ChordPart
    ensures { (a b : ℤ) → y ≡ sgn a → z ≡ sgn b → IsChordPart a b result }
{
    match y {
        Sign::Pos => match z {
            Sign::Neg => ChordPart::Split,
            _ => ChordPart::Empty,
        },
        Sign::Zero => match z {
            Sign::Pos => ChordPart::Empty,
            _ => ChordPart::Whole,
        },
        Sign::Neg => match z {
            Sign::Pos => ChordPart::Split,
            _ => ChordPart::Whole,
        },
    }
}

// Whether the point lies above the plane.
fn is_above<W: Width>(edge: &Plane, m: &W::Point) -> bool
    requires { W.IsPlane edge.now }
    ensures { result ≡ is_positive (value_at edge.now (W.spot m.now)) }
{
    W::side(edge, m) == Sign::Pos
}

// Whether the point lies above none of the planes.
fn none_above<W: Width>(edges: &[Plane], m: &W::Point) -> bool
    requires { All W.IsPlane edges.now }
    ensures { result ≡ none_positive edges.now (W.spot m.now) }
{
    for edge in edges {
        if is_above::<W>(edge, m) {
            return false;
        }
    }
    true
}

// Whether the planes `support`, `p` and `edge` meet in one point, and it is above none of the
// planes of the list.
fn has_vertex_within<W: Width>(support: &Plane, p: &Plane, edge: &Plane, edges: &[Plane]) -> bool
    requires valid_support { W.IsPlane support.now }
    requires valid_p { W.IsPlane p.now }
    requires valid_edge { W.IsPlane edge.now }
    requires valid { All W.IsPlane edges.now }
    ensures { IsTrue result ↔ HasVertexWithin support.now p.now edge.now edges.now }
{
    match W::meet(support, p, edge) {
        Some(m) => none_above::<W>(edges, &m),
        None => false,
    }
}

// Whether some point between the chord's two ends is above none of the planes of the list.
fn chord_has_point_within<W: Width>(
    support: &Plane,
    p: &Plane,
    from: &W::Point,
    to: &W::Point,
    edges: &[Plane],
) -> bool
    requires valid_support { W.IsPlane support.now }
    requires valid_p { W.IsPlane p.now }
    requires valid { All W.IsPlane edges.now }
    requires line { IsLine support.now p.now (W.spot from.now) (W.spot to.now) }
    ensures { IsTrue result ↔ IsOpen edges.now (W.spot from.now) (W.spot to.now) }
{
    let mut free = true;
    for edge in edges {
        match chord_part_of(W::side(edge, from), W::side(edge, to)) {
            ChordPart::Whole => {}
            ChordPart::Empty => {
                return false;
            }
            ChordPart::Split => {
                // If a part of the chord is left, it ends at the point of a splitting plane, and
                // this point is above none of the planes. So only these points are tested.
                if has_vertex_within::<W>(support, p, edge, edges) {
                    return true;
                }
                free = false;
            }
        }
    }
    free
}

// How a ring lies relative to a plane: on one side, in it, or cut by it along a chord between two
// points.
#[derive(Drop)]
enum Crossing<W: Width> {
    Below,
    Above,
    On,
    Along(W::Point, W::Point),
}

// How the ring lies relative to the plane.
fn cross<W: Width>(r: &Ring<W>, p: &Plane) -> Crossing<W>
    requires { W.IsPlane p.now }
    ensures { IsCrossing W.spot r.now p.now result }
{
    let classified = classify::<W>(p, r.boundary.corners.as_slice());
    match classified.reach {
        Reach::Below => Crossing::Below,
        Reach::Above => Crossing::Above,
        Reach::On => Crossing::On,
        Reach::Both => {
            let passage = find_passage(&r.support, &r.boundary, p, &classified);
            // from the exit to the entry, as the edge that closes the part below
            Crossing::Along(passage.exit, passage.entry)
        }
    }
}

// Whether some inside point is above none of the planes, by the chords in which they cut the ring.
fn has_point_within_by_chords<W: Width>(r: &Ring<W>, edges: &[Plane]) -> bool
    requires planes { All W.IsPlane edges.now }
    requires inside { HasInside r.now }
    ensures { IsTrue result ↔ Somewhere r.now (λ v. none_positive edges.now v ≡ true) }
{
    let n = ring::support(r);
    let mut free = true;
    for edge in edges {
        match cross(r, edge) {
            Crossing::Below => {}
            Crossing::On => {}
            Crossing::Above => {
                return false;
            }
            Crossing::Along(y, z) => {
                // If some inside point is above none of the planes, then such a point is also on
                // the chord of a plane that cuts the ring. So only the chords are tested.
                if chord_has_point_within::<W>(&n, edge, &y, &z, edges) {
                    return true;
                }
                free = false;
            }
        }
    }
    free
}

// Whether the ring has an inside point above none of some planes, as far as its reach to each of
// them shows.
#[derive(Clone, Copy)]
enum Overlap {
    // It has none: it lies above one of the planes.
    Apart,
    // It has one: the ring lies above none of the planes, and at most one of them cuts it. Then any
    // inside point will do, or any below the one that cuts.
    Met,
    // Not known.
    Unknown,
}

// Whether the ring has an inside point above none of the planes, as far as one pass over the
// corners for each plane shows. It computes no meet.
fn overlap_of<W: Width>(r: &Ring<W>, edges: &[Plane]) -> Overlap
    requires planes { All W.IsPlane edges.now }
    requires inside { HasInside r.now }
    ensures { IsOverlap r.now edges.now result }
{
    let mut is_cut = false;
    let mut is_cut_twice = false;
    for edge in edges {
        match reach(r, edge) {
            Reach::Below => {}
            Reach::On => {}
            Reach::Above => {
                return Overlap::Apart;
            }
            Reach::Both => {
                is_cut_twice = is_cut;
                is_cut = true;
            }
        }
    }
    if is_cut_twice {
        Overlap::Unknown
    } else {
        Overlap::Met
    }
}

/// Whether some inside point of the ring is above none of the planes.
pub fn has_point_within<W: Width>(r: &Ring<W>, edges: &[Plane]) -> bool
    requires planes { All W.IsPlane edges.now }
    requires inside { HasInside r.now }
    ensures { IsTrue result ↔ Somewhere r.now (λ v. none_positive edges.now v ≡ true) }
{
    match overlap_of(r, edges) {
        Overlap::Apart => false,
        Overlap::Met => true,
        Overlap::Unknown => has_point_within_by_chords(r, edges),
    }
}

/// Whether some inside point of the ring lies in the closed face of a support plane and edge
/// planes.
pub fn meets_face<W: Width>(r: &Ring<W>, support: &Plane, edges: &[Plane]) -> bool
    requires support { W.IsPlane support.now }
    requires edges { All W.IsPlane edges.now }
    ensures { IsTrue result ↔ Meets r.now (face_with support.now edges.now) }
{
    let n = ring::support(r);
    match cross(r, support) {
        Crossing::Below | Crossing::Above => false,
        Crossing::On => has_point_within(r, edges),
        Crossing::Along(y, z) => chord_has_point_within::<W>(&n, support, &y, &z, edges),
    }
}

// `true` only if all three values are positive.
fn are_above(a: i64, b: i64, c: i64) -> bool
    ensures { IsTrue result → (pos 0 <ℤ a) × (pos 0 <ℤ b) × (pos 0 <ℤ c) }
{
    a > 0 && (b > 0 && c > 0)
}

// `true` only if all three values are negative.
fn are_below(a: i64, b: i64, c: i64) -> bool
    ensures { IsTrue result → (a <ℤ pos 0) × (b <ℤ pos 0) × (c <ℤ pos 0) }
{
    a < 0 && (b < 0 && c < 0)
}

// `true` only if the triangle lies strictly on one side of the plane; `false` shows nothing.
fn is_on_one_side(p: &Plane, t: &Tri) -> bool
    requires plane { IsBroadPlane p.now }
    requires tri { IsTriWithin most_floor t.now }
    ensures { IsTrue result → IsOnOneSide p.now t.now }
{
    let a = value_at_corner(p, &t.a);
    let b = value_at_corner(p, &t.b);
    let c = value_at_corner(p, &t.c);
    are_above(a, b, c) || are_below(a, b, c)
}

/// Whether some inside point of the ring lies in the closed face of the triangle.
pub fn meets<W: Width>(r: &Ring<W>, t: &Tri) -> bool
    requires tri { IsTriWithin W.corner t.now }
    requires normal { is_flat t.now ≡ false }
    ensures { IsTrue result ↔ Meets r.now (face_of t.now) }
{
    if is_on_one_side(&r.support, t) {
        return false;
    }
    let support = support_of(t);
    meets_face(r, &support, &main_edges(t, &support))
}
