// Where a plane cuts a ring.
ghost use Rattle.std.specs.Prelude.{◌≡◌, ◌⊎◌, ◌+◌, ◌<◌, List, length, take, drop, true, false, All, IfSome, pos, ◌<ℤ◌};
ghost use Rattle.std.specs.List.{AllByRecursion};
ghost use Rattle.ember_algebra.specs.Size.{Small};
ghost use Rattle.ember_algebra.specs.Sign.{sgn, is_positive};
ghost use Rattle.ember_model.specs.Planes.{value_at};
ghost use Rattle.ember_poly.specs.Rings.{IsConvexRing, IsMeet, IsAbove, IsNotAbove, orientation};
ghost use Rattle.ember_poly.specs.Boundaries.{sides, HasEqualLengths};
ghost use Rattle.ember_poly.specs.declared.reach_and_cut.Reach.TheVariants as reach;
ghost use Rattle.ember_width.specs.Levels.{IsAlong};
ghost use Rattle.ember_poly.specs.Levels.{IsLevel};
ghost use Rattle.ember_poly.specs.Passages.{HasMember, AreSigns, AreClassified, is_under, Straddles, IsOneSidedRun, AreNotBelow, IsRunNotBelow, EntersAt, IsPassage};

use crate::boundary::Boundary;
use crate::level::{Level, level_of};
use crate::reach_and_cut::Reach;
use ember_algebra::Sign;
use ember_model::{Axis, Plane};
use ember_width::Width;

// On which sides of a plane a ring's corners lie. If they lie on both, also where the boundary
// passes below the plane, and for how many corners.
#[derive(Clone, Copy)]
pub struct Classification {
    pub reach: Reach,
    // The index of the edge on which the boundary passes below the plane. It starts at the last
    // corner before those below.
    pub entry_edge: usize,
    // How many corners after it lie below the plane.
    pub below_count: usize,
}

// Where a plane cuts a ring: the edge on which the boundary passes below the plane, by its index
// `entry_edge`, the number of corners below the plane, and the ends of the chord. The boundary
// passes below the plane at `entry`, and back at `exit`.
#[derive(Drop)]
pub struct Passage<W: Width> {
    pub entry_edge: usize,
    pub below_count: usize,
    pub entry: W::Point,
    pub exit: W::Point,
}

// The axis across which the plane lies, if there is one: its normal has no entry along the others.
fn axis_of(p: &Plane) -> Option<Axis>
    ensures { IfSome result (λ k. IsAlong k p.now) }
{
    if p.b == 0 && p.c == 0 {
        Some(Axis::X)
    } else if p.a == 0 && p.c == 0 {
        Some(Axis::Y)
    } else if p.a == 0 && p.b == 0 {
        Some(Axis::Z)
    } else {
        None
    }
}

// The side of the plane on which the point lies. The axis is one that the plane lies across, or
// none.
#[inline]
fn side_with_axis<W: Width>(p: &Plane, axis: Option<Axis>, m: &W::Point) -> Sign
    requires plane { W.IsPlane p.now }
    requires axis { IfSome axis (λ k. IsAlong k p.now) }
    ensures { result ≡ sgn (value_at p.now (W.spot m.now)) }
{
    match axis {
        Some(k) => W::side_across(p, k, m),
        None => W::side(p, m),
    }
}

// Whether the point lies above the plane.
fn is_above<W: Width>(p: &Plane, axis: Option<Axis>, m: &W::Point) -> bool
    requires plane { W.IsPlane p.now }
    requires axis { IfSome axis (λ k. IsAlong k p.now) }
    ensures { result ≡ is_positive (value_at p.now (W.spot m.now)) }
{
    side_with_axis::<W>(p, axis, m) == Sign::Pos
}

// Length of the leading run of corners below the plane (the first `known` are known to be), and
// whether the next corner is above it.
#[inline(always)]
fn count_below<W: Width>(
    p: &Plane,
    axis: Option<Axis>,
    corners: &[W::Point],
    known: usize,
) -> (usize, bool)
    requires plane { W.IsPlane p.now }
    requires axis { IfSome axis (λ k. IsAlong k p.now) }
    requires known { AllByRecursion (λ m. is_under W.spot p.now m ≡ true) (take known corners.now) }
    ensures run { IsOneSidedRun W.spot p.now true corners.now result.0 }
    ensures next { AreNotBelow W.spot p.now result.1 (take 1 (drop result.0 corners.now)) }
{
    for i in known..corners.len() {
        match side_with_axis::<W>(p, axis, &corners[i]) {
            Sign::Neg => {}
            Sign::Zero => return (i, false),
            Sign::Pos => return (i, true),
        }
    }
    (corners.len(), false)
}

// Length of the leading run of corners not below the plane, and whether one of them is above it.
// The first corner isn't below; `first` says whether it is above.
fn count_not_below<W: Width>(
    p: &Plane,
    axis: Option<Axis>,
    corners: &[W::Point],
    first: bool,
) -> (usize, bool)
    requires plane { W.IsPlane p.now }
    requires axis { IfSome axis (λ k. IsAlong k p.now) }
    requires first { AreNotBelow W.spot p.now first (take 1 corners.now) }
    ensures { IsRunNotBelow W.spot p.now corners.now result.0 result.1 }
{
    let mut high = first;
    for i in 1..corners.len() {
        match side_with_axis::<W>(p, axis, &corners[i]) {
            Sign::Neg => return (i, high),
            Sign::Zero => {}
            Sign::Pos => high = true,
        }
    }
    (corners.len(), high)
}

// Whether a corner of the ring is above the plane: one that is already known to be, or one of
// these.
fn is_some_above<W: Width>(p: &Plane, axis: Option<Axis>, corners: &[W::Point], known: bool) -> bool
    requires plane { W.IsPlane p.now }
    requires axis { IfSome axis (λ k. IsAlong k p.now) }
    ensures some { result ≡ true → (known ≡ true) ⊎ HasMember (λ m. IsAbove p.now (W.spot m)) corners.now }
    ensures none { result ≡ false → (known ≡ false) × AllByRecursion (λ m. IsNotAbove p.now (W.spot m)) corners.now }
{
    if known {
        return true;
    }
    for i in 0..corners.len() {
        if is_above::<W>(p, axis, &corners[i]) {
            return true;
        }
    }
    false
}

// The reach of a ring. `below_count` is how many of its corners are known to be below a plane, 0
// only if none is; `some_above` is whether some corner is above it.
fn reach_by<W: Width>(below_count: usize, some_above: bool) -> Reach
    ensures { (p : Plane) (ms : List _) →
        AreClassified W.spot p below_count some_above ms → AreSigns W.spot p ms result }
{
    if below_count == 0 {
        if some_above { Reach::Above } else { Reach::On }
    } else if some_above {
        Reach::Both
    } else {
        Reach::Below
    }
}

/// Classifies the corners of a ring by their sides of the plane, and computes each side at most
/// once.
// The ring is convex, so its corners form one run below the plane and one run not below it. Seen
// from the first corner, either may be in two parts: `leading` corners below, `rising` ones that
// aren't, `falling` ones below again, and others that aren't. `turn` is the index of the first
// falling corner.
// Example, with - for a corner below: in `--+++-` two are leading, three rising and one is falling,
// `turn` is 5, and the run below is the last corner and the first two. `--++-+` would be two runs
// below, so it doesn't occur.
pub fn classify<W: Width>(plane: &Plane, corners: &[W::Point]) -> Classification
    requires { W.IsPlane plane.now }
    ensures signs { AreSigns W.spot plane.now corners.now result.reach }
    ensures entry { result.reach ≡ reach.Both →
        EntersAt W.spot plane.now corners.now result.entry_edge result.below_count }
{
    let axis = axis_of(plane);
    let (leading, next) = count_below::<W>(plane, axis, corners, 0);
    let (rising, some_high) = count_not_below::<W>(plane, axis, &corners[leading..], next);
    let turn = leading + rising;
    // The corner at `turn`, if there is one, ended the rising run, so it is known to be below.
    let (falling, _) = count_below::<W>(plane, axis, &corners[turn..], 1);
    let high = is_some_above::<W>(plane, axis, &corners[turn + falling..], some_high);
    let reach = reach_by::<W>(leading + falling, high);
    let entry_edge = turn.saturating_sub(1);
    if turn + falling < corners.len() {
        Classification {
            reach,
            entry_edge,
            below_count: falling,
        }
    } else {
        // The falling corners end the list, and go on with the leading ones.
        Classification {
            reach,
            entry_edge,
            below_count: falling + leading,
        }
    }
}

// The index of the corner that is `count` corners after the one with the index `first`, around the
// ring.
fn ahead(first: usize, count: usize, len: usize) -> usize
    requires first { first < len }
    requires count { count < len }
    ensures within { result < len }
    ensures index { (result ≡ first + count) ⊎ (result + len ≡ first + count) }
{
    let left = len - first;
    if count < left {
        first + count
    } else {
        count - left
    }
}

// The point of three planes whose normals have a positive determinant. If the third is a level,
// small numbers suffice.
fn point_of<W: Width>(p: &Plane, q: &Plane, r: &Plane, level: Option<Level>) -> W::Point
    requires valid_p { W.IsPlane p.now }
    requires valid_q { W.IsPlane q.now }
    requires valid_r { W.IsPlane r.now }
    requires turns { pos 0 <ℤ orientation p.now q.now r.now }
    requires level { IfSome level (λ l. IsLevel l.axis l.at l.is_up r.now) }
    requires small { IfSome level (λ l. Small (W.corner + 1) l.at) }
    ensures { IsMeet p.now q.now r.now (W.spot result) }
{
    match level {
        Some(l) => {
            if l.is_up {
                W::level_point(p, q, l.axis, l.at)
            } else {
                W::level_point(q, p, l.axis, l.at)
            }
        }
        None => match W::meet(p, q, r) {
            Some(m) => m,
            None => unreachable!(),
        },
    }
}

/// The passage of a ring through the plane. Requires that the ring has corners on both sides of the
/// plane, and that `classified` is what `classify` returned for them.
pub fn find_passage<W: Width>(
    support: &Plane,
    boundary: &Boundary<W>,
    plane: &Plane,
    classified: &Classification,
) -> Passage<W>
    requires support { W.IsPlane support.now }
    requires edges { All W.IsPlane boundary.now.edges.items }
    requires plane { W.IsPlane plane.now }
    requires paired { HasEqualLengths boundary.now }
    requires sound { IsConvexRing support.now (sides W.spot boundary.now) }
    requires straddles { Straddles W.spot plane.now boundary.now.corners.items }
    requires entry { EntersAt W.spot plane.now boundary.now.corners.items
        classified.now.entry_edge classified.now.below_count }
    ensures passage { IsPassage W.spot support.now plane.now (sides W.spot boundary.now) result }
    ensures below_count { result.below_count < length boundary.now.edges.items }
{
    let entry_edge = classified.entry_edge;
    let below_count = classified.below_count;
    let last = ahead(entry_edge, below_count, boundary.corners.len());
    let level = level_of::<W>(plane);
    // `point_of` takes planes whose normals have a positive determinant. The boundary passes the
    // plane in opposite directions at the two points, so the edge and the support change places.
    Passage {
        entry_edge,
        below_count,
        entry: point_of::<W>(&boundary.edges[entry_edge], support, plane, level),
        exit: point_of::<W>(support, &boundary.edges[last], plane, level),
    }
}
