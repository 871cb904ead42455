// Which triangles meet.
ghost use Rattle.std.specs.Prelude.{◌≡◌, ◌+◌, ◌<◌, ◌↔◌, false, true, not, List, [], ◌∷◌, ◌++◌, if◌then◌else◌, drop};
ghost use Rattle.std.specs.Prelude.{length, All, slice_index, IfSome, IsNone, IfOk, OnOk, IsTrue};
ghost use Rattle.ember_model.specs.Valid.{IsValidTri};
ghost use Rattle.ember_model.specs.Planes.{support_of};
ghost use Rattle.ember_model.specs.Owners.{lies_in_plane_of};
ghost use Rattle.ember_model.specs.Faces.{is_flat, face_of, Meets};
ghost use Rattle.ember_box.specs.Near.{tri_at};
ghost use Rattle.ember_pairs.specs.declared.pair.Pair.{Pair};
ghost use Rattle.ember_pairs.specs.Pairs.{AreMeeting, AreMeetingPairs, Completes, row};
ghost use Rattle.ember_width.specs.Heights.{heights_of};
ghost use Rattle.ember_pairs.specs.Heights.{AreSmall, ArePlaneHeights};
ghost use Rattle.ember_pairs.specs.ByEdges.{IsByEdges};
ghost use Rattle.ember_pairs.specs.Candidates.{candidate_of, candidates_at, not_flat};

use crate::by_edges::ByEdges;
use crate::chords::shown_by_chord;
use crate::edge_heights::edge_heights;
use crate::heights::{PlaneHeights, are_on_one_side, lean_to_one_side, small_heights};
use crate::pair::{Pair, PairList};
use crate::samples::has_sample_within;
use ember_box::{Aabb, aabb_of_tri, aabbs_meet};
use ember_model::{OutOfMemory, Plane, Scene, Tri, has_no_normal, support_of};
use ember_poly::{meets, of_tri};
use ember_width::Heights;
use std::alloc::Global;

// What the test of two triangles first looks at: the bounding box and the plane of each.
#[derive(Clone, Copy)]
struct Candidate {
    aabb: Aabb,
    support: Plane,
}

// The bounding box and the plane of a triangle.
fn candidate_of(t: &Tri) -> Candidate
    requires { IsValidTri t.now }
    ensures { result ≡ candidate_of t.now }
{
    Candidate {
        aabb: aabb_of_tri(t),
        support: support_of(t),
    }
}

// The heights of two triangles over each other's planes, or `None` if they show that the two don't
// meet: the corners of one are strictly on one side of the other's plane, or those of each are on
// one side of the other's plane and not all on it.
fn plane_heights(first: &Candidate, t: &Tri, second: &Candidate, u: &Tri) -> Option<PlaneHeights>
    requires one { IsValidTri t.now }
    requires other { IsValidTri u.now }
    requires facet { first.now ≡ candidate_of t.now }
    requires other_facet { second.now ≡ candidate_of u.now }
    ensures value { IfSome result (ArePlaneHeights t.now u.now) }
    ensures parted { IsNone result → AreMeeting t.now u.now → ⊥ }
{
    let theirs = small_heights(&first.support, u);
    if are_on_one_side(&theirs) {
        return None;
    }
    let own = small_heights(&second.support, t);
    if are_on_one_side(&own) {
        return None;
    }
    if lean_to_one_side(&own) && lean_to_one_side(&theirs) {
        return None;
    }
    Some(PlaneHeights { theirs, own })
}

// What the edge planes of two triangles in one plane and their sample points show. Neighbours are
// apart, so this is tested before any sample point.
fn by_samples(first: &Candidate, t: &Tri, second: &Candidate, u: &Tri) -> ByEdges
    requires one { IsValidTri t.now }
    requires other { IsValidTri u.now }
    requires facet { first.now ≡ candidate_of t.now }
    requires other_facet { second.now ≡ candidate_of u.now }
    requires plane { lies_in_plane_of t.now u.now ≡ true }
    requires other_plane { lies_in_plane_of u.now t.now ≡ true }
    ensures { IsByEdges t.now u.now result }
{
    if has_no_normal(&first.support) || has_no_normal(&second.support) {
        return ByEdges::Unknown;
    }
    let Some(theirs) = edge_heights(t, &first.support, u) else {
        return ByEdges::Apart;
    };
    let Some(own) = edge_heights(u, &second.support, t) else {
        return ByEdges::Apart;
    };
    if has_sample_within(&theirs, &own) {
        return ByEdges::Met;
    }
    ByEdges::Unknown
}

// What the edge planes of `t` and the chord in which the plane of `t` cuts `u` show. `over` are the
// heights of `u` over this plane.
fn by_chord(t: &Tri, support: &Plane, u: &Tri, over: &Heights) -> ByEdges
    requires one { IsValidTri t.now }
    requires other { IsValidTri u.now }
    requires face { is_flat t.now ≡ false }
    requires other_face { is_flat u.now ≡ false }
    requires support { support.now ≡ support_of t.now }
    requires over { over.now ≡ heights_of (support_of t.now) u.now }
    requires small { AreSmall over.now }
    ensures { IsByEdges t.now u.now result }
{
    match edge_heights(t, support, u) {
        None => ByEdges::Apart,
        Some(edges) => shown_by_chord(over, &edges),
    }
}

// What the edge planes of two triangles show, by sample points if they lie in one plane, and
// otherwise by the chord of each in the plane of the other.
fn by_edges(first: &Candidate, t: &Tri, second: &Candidate, u: &Tri, over: &PlaneHeights) -> ByEdges
    requires one { IsValidTri t.now }
    requires other { IsValidTri u.now }
    requires facet { first.now ≡ candidate_of t.now }
    requires other_facet { second.now ≡ candidate_of u.now }
    requires over { ArePlaneHeights t.now u.now over.now }
    ensures { IsByEdges t.now u.now result }
{
    let theirs_on = over.theirs.all_on();
    let own_on = over.own.all_on();
    if theirs_on && own_on {
        return by_samples(first, t, second, u);
    }
    // Only one lies in the plane of the other, so one is flat.
    if theirs_on || own_on {
        return ByEdges::Unknown;
    }
    match by_chord(t, &first.support, u, &over.theirs) {
        ByEdges::Unknown => by_chord(u, &second.support, t, &over.own),
        shown => shown,
    }
}

// Whether the triangle is flat: its normal is zero.
fn is_flat(t: &Tri) -> bool
    requires { IsValidTri t.now }
    ensures { result ≡ is_flat t.now }
{
    has_no_normal(&support_of(t))
}

// Whether some inside point of the face of `t` lies in the closed face of `u`. Makes the ring of
// the face of `t`.
fn face_reaches(alloc: Global, t: &Tri, u: &Tri) -> Result<bool, OutOfMemory>
    requires one { IsValidTri t.now }
    requires other { IsValidTri u.now }
    requires face { is_flat t.now ≡ false }
    requires other_face { is_flat u.now ≡ false }
    ensures { IfOk result (λ b. IsTrue b ↔ Meets (face_of t.now) (face_of u.now)) }
{
    match of_tri(alloc, t)? {
        None => Ok(false),
        Some(r) => Ok(meets(&r, u)),
    }
}

// Whether two triangles meet. Makes the ring of one face, and that of the other only if the first
// doesn't show it.
fn faces_meet(alloc: Global, t: &Tri, u: &Tri) -> Result<bool, OutOfMemory>
    requires one { IsValidTri t.now }
    requires other { IsValidTri u.now }
    ensures { IfOk result (λ b. IsTrue b ↔ AreMeeting t.now u.now) }
{
    if is_flat(t) || is_flat(u) {
        return Ok(false);
    }
    Ok(face_reaches(alloc, t, u)? || face_reaches(alloc, u, t)?)
}

// Whether two triangles meet. Rings are made only if neither bounding boxes nor corners nor edges
// nor sample points nor chords show it.
fn are_meeting(
    alloc: Global,
    first: &Candidate,
    t: &Tri,
    second: &Candidate,
    u: &Tri,
) -> Result<bool, OutOfMemory>
    requires one { IsValidTri t.now }
    requires other { IsValidTri u.now }
    requires facet { first.now ≡ candidate_of t.now }
    requires other_facet { second.now ≡ candidate_of u.now }
    ensures { IfOk result (λ b. IsTrue b ↔ AreMeeting t.now u.now) }
{
    if !aabbs_meet(&first.aabb, &second.aabb) {
        return Ok(false);
    }
    let Some(over) = plane_heights(first, t, second, u) else {
        return Ok(false);
    };
    match by_edges(first, t, second, u, &over) {
        ByEdges::Apart => Ok(false),
        ByEdges::Met => Ok(true),
        ByEdges::Unknown => faces_meet(alloc, t, u),
    }
}

/// The same as `meeting`, for a list of triangles in place of a scene. The only error is
/// out-of-memory.
pub fn meet_at(alloc: Global, tris: &[Tri], i: u32, j: u32) -> Result<bool, OutOfMemory>
    requires valid { All IsValidTri tris.now }
    requires one { i < length tris.now }
    requires other { j < length tris.now }
    ensures { IfOk result (λ b. IsTrue b ↔ AreMeeting (tri_at tris.now i) (tri_at tris.now j)) }
{
    let t = tris[i as usize];
    let u = tris[j as usize];
    let f = candidate_of(&t);
    let g = candidate_of(&u);
    are_meeting(alloc, &f, &t, &g, &u)
}

/// Whether the triangles `i` and `j` of the scene meet: neither is flat, and some inside point of
/// the face of one lies in the closed face of the other. Only tests call this. The only error is
/// out-of-memory.
pub fn meeting(alloc: Global, s: &Scene, i: u32, j: u32) -> Result<bool, OutOfMemory>
    requires one { i < length s.now.tris }
    requires other { j < length s.now.tris }
    ensures { IfOk result (λ b. IsTrue b ↔ AreMeeting (tri_at s.now.tris i) (tri_at s.now.tris j)) }
{
    meet_at(alloc, s.tris.items(), i, j)
}

// The bounding boxes and planes of the listed triangles, in order.
fn candidates_at(alloc: Global, tris: &[Tri], list: &[u32]) -> Result<Vec<Candidate>, OutOfMemory>
    requires valid { All IsValidTri tris.now }
    requires places { All (λ i. i < length tris.now) list.now }
    ensures { IfOk result (λ v. v.items ≡ candidates_at tris.now list.now) }
{
    let mut candidates = Vec::with_capacity(alloc, list.len())?;
    for i in list {
        candidates.push(candidate_of(&tris[*i as usize]))?;
    }
    Ok(candidates)
}

// Whether the triangles with the indices `list[a]` and `list[b]` meet.
fn meet_in(
    alloc: Global,
    tris: &[Tri],
    list: &[u32],
    candidates: &[Candidate],
    a: usize,
    b: usize,
) -> Result<bool, OutOfMemory>
    requires valid { All IsValidTri tris.now }
    requires places { All (λ i. i < length tris.now) list.now }
    requires candidates { candidates.now ≡ candidates_at tris.now list.now }
    requires one { a < length list.now }
    requires other { b < length list.now }
    ensures { IfOk result (λ m. IsTrue m ↔
        AreMeeting (tri_at tris.now (slice_index list.now a)) (tri_at tris.now (slice_index list.now b))) }
{
    let t = tris[list[a] as usize];
    let u = tris[list[b] as usize];
    are_meeting(alloc, &candidates[a], &t, &candidates[b], &u)
}

// Appends a pair if its triangles meet.
fn push_if(meet: bool, pair: Pair, out: &mut Vec<Pair>) -> Result<(), OutOfMemory>
    ensures { OnOk result (out.new.items ≡ out.old.items ++ (if meet then pair ∷ [] else [])) }
{
    if meet {
        out.push(pair)?;
    }
    Ok(())
}

// Appends the meeting pairs of `list[a]` with all later ones of the list.
fn push_row(
    alloc: Global,
    tris: &[Tri],
    list: &[u32],
    candidates: &[Candidate],
    a: usize,
    out: &mut Vec<Pair>,
) -> Result<(), OutOfMemory>
    requires valid { All IsValidTri tris.now }
    requires places { All (λ i. i < length tris.now) list.now }
    requires candidates { candidates.now ≡ candidates_at tris.now list.now }
    requires index { a < length list.now }
    ensures { OnOk result ((all later : List Pair) →
        Completes tris.now all (row (slice_index list.now a) (drop (a + 1) list.now) ++ later) out.old.items →
        Completes tris.now all later out.new.items) }
{
    for b in a + 1..list.len() {
        let pair = Pair {
            low: list[a],
            high: list[b],
        };
        push_if(meet_in(alloc, tris, list, candidates, a, b)?, pair, out)?;
    }
    Ok(())
}

// The pairs of listed triangles that meet, by a test of each two of them.
fn tested_pairs(alloc: Global, tris: &[Tri], list: &[u32]) -> Result<PairList, OutOfMemory>
    requires valid { All IsValidTri tris.now }
    requires places { All (λ i. i < length tris.now) list.now }
    ensures { IfOk result (λ ps. AreMeetingPairs tris.now list.now ps) }
{
    let candidates = candidates_at(alloc, tris, list)?;
    let mut out = Vec::new(alloc);
    for a in 0..list.len() {
        push_row(alloc, tris, list, &candidates, a, &mut out)?;
    }
    Ok(PairList::of(out))
}

// Whether triangle `i` of the list has a face.
fn has_face(tris: &[Tri], i: u32) -> bool
    requires valid { All IsValidTri tris.now }
    requires index { i < length tris.now }
    ensures { result ≡ not (is_flat (tri_at tris.now i)) }
{
    !is_flat(&tris[i as usize])
}

// Those of the listed triangles that have a face, in order.
fn not_flat(alloc: Global, tris: &[Tri], list: &[u32]) -> Result<Vec<u32>, OutOfMemory>
    requires valid { All IsValidTri tris.now }
    requires places { All (λ i. i < length tris.now) list.now }
    ensures { IfOk result (λ v. v.items ≡ not_flat tris.now list.now) }
{
    let mut found = Vec::with_capacity(alloc, list.len())?;
    for i in list {
        if has_face(tris, *i) {
            found.push(*i)?;
        }
    }
    Ok(found)
}

/// The pairs of listed triangles that meet, in the order of the list. Flat triangles meet none, so
/// they are left out before two are tested: otherwise many of them at one place would take time in
/// the square of their number. The only error is out-of-memory.
pub fn meeting_pairs(alloc: Global, tris: &[Tri], list: &[u32]) -> Result<PairList, OutOfMemory>
    requires valid { All IsValidTri tris.now }
    requires places { All (λ i. i < length tris.now) list.now }
    ensures { IfOk result (λ ps. AreMeetingPairs tris.now list.now ps) }
{
    let kept = not_flat(alloc, tris, list)?;
    let pairs = tested_pairs(alloc, tris, kept.as_slice())?;
    Ok(pairs)
}
