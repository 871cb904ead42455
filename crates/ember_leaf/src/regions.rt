// The regions of a triangle: its start, cut by one triangle after another. A region that a coplanar
// triangle of lower index contains is dropped as soon as that triangle has cut, so it costs nothing
// further.
//
// `regions` calls `split_all` for each cutter. This calls `add_all` on the regions from the first
// one that meets the cutter. `add_all` calls `add_cut` for each of them that meets it, and
// `add_cut` calls `add_parts` for a cutter in another plane, and `add_pieces` for a coplanar one.
ghost use Rattle.std.specs.Prelude.{◌≡◌, ◌↔◌, IsTrue, true, [], ◌∷◌, ◌≤◌, length, take, drop};
ghost use Rattle.std.specs.Prelude.{All, IfOk, OnOk};
ghost use Rattle.std.specs.List.{AllByRecursion};
ghost use Rattle.ember_model.specs.Faces.{face_of, Meets};
ghost use Rattle.ember_leaf.specs.Cutters.{AreLeftByCutter, AreLeftByEdges, SplitsIfCut, IsUncut, AreSplit, AreCut, AddsSplit};
ghost use Rattle.ember_leaf.specs.Cutters.{MeetsFirst, CutOutTriangle, ShareAPlane, CanCut};
ghost use Rattle.ember_leaf.specs.declared.cutter.Role.TheVariants.{Earlier};
ghost use Rattle.ember_poly.specs.Cuts.{HasInside};
ghost use Rattle.ember_leaf.specs.Written.{HasGrown};

use crate::contact::{Contact, contact_of};
use crate::cutter::{Cutter, Role};
use ember_model::{OutOfMemory, Plane};
use ember_poly::{Reach, Ring, above, has_point_within, meets_face, outline, parts, reach};
use ember_width::Width;
use std::alloc::Global;

// Whether the region meets a triangle in its plane: some inside point of the region lies in the
// triangle's closed face. The triangle's corners decide most pairs, in 64 bits and without
// computing a meet.
fn is_met_coplanar<W: Width>(r: &Ring<W>, cutter: &Cutter<W>) -> bool
    requires plane { ShareAPlane cutter.now.tri r.now }
    requires somewhere { HasInside r.now }
    ensures { IsTrue result ↔ Meets r.now (face_of cutter.now.tri) }
{
    match contact_of(outline(r).0, &cutter.tri) {
        Contact::Apart => false,
        Contact::Met => true,
        Contact::Unknown => has_point_within(r, &cutter.edges),
    }
}

// Whether the region meets the triangle: some inside point of the region lies in the triangle's
// closed face.
fn is_met<W: Width>(r: &Ring<W>, cutter: &Cutter<W>) -> bool
    requires { CanCut cutter.now r.now }
    ensures { IsTrue result ↔ Meets r.now (face_of cutter.now.tri) }
{
    match cutter.role {
        Role::OtherPlane => meets_face(r, &cutter.support, &cutter.edges),
        _ => is_met_coplanar(r, cutter),
    }
}

// How many regions at the front of the list don't meet the triangle.
fn count_apart<W: Width>(list: &[Ring<W>], cutter: &Cutter<W>) -> usize
    requires { All (CanCut cutter.now) list.now }
    ensures fits { result ≤ length list.now }
    ensures whole { AreSplit cutter.now (take result list.now) (take result list.now) }
    ensures met { MeetsFirst cutter.now (drop result list.now) }
{
    for i in 0..list.len() {
        if is_met(&list[i], cutter) {
            return i;
        }
    }
    list.len()
}

// Adds the two parts of a region if the plane cuts it, otherwise the region itself.
fn add_parts<W: Width>(
    alloc: Global,
    r: Ring<W>,
    p: &Plane,
    out: &mut Vec<Ring<W>>,
) -> Result<(), OutOfMemory>
    requires { W.IsPlane p.now }
    ensures { OnOk result (HasGrown (SplitsIfCut p.now r) out.old.items out.new.items) }
{
    match reach(&r, p) {
        Reach::Both => {
            let (low, high) = parts(alloc, r, p)?;
            out.push(low)?;
            out.push(high)?;
        }
        _ => out.push(r)?,
    }
    Ok(())
}

// `true` only if none of the planes cuts the region.
fn is_uncut<W: Width>(r: &Ring<W>, planes: &[Plane]) -> bool
    requires { All W.IsPlane planes.now }
    ensures { result ≡ true → AllByRecursion (IsUncut r.now) planes.now }
{
    for p in planes {
        match reach(r, p) {
            Reach::Both => {
                return false;
            }
            _ => {}
        }
    }
    true
}

// `true` only if the inner part of the region, the part below the plane that cuts it now, needn't
// be made. That is so if the cutter is `Earlier` and none of `planes`, its further planes, cuts the
// region. The region overlaps the cutter, so it then lies below all these planes. So the inner part
// lies inside the cutter, which owns what it contains.
fn needs_no_inner_part<W: Width>(r: &Ring<W>, cutter: &Cutter<W>, planes: &[Plane]) -> bool
    requires { All W.IsPlane planes.now }
    ensures { result ≡ true → (cutter.now.role ≡ Earlier) × AllByRecursion (IsUncut r.now) planes.now }
{
    match cutter.role {
        Role::Earlier => is_uncut(r, planes),
        _ => false,
    }
}

// Cuts a region that overlaps the triangle by `edges`, its remaining edge planes. Adds the part
// inside the triangle, unless the triangle owns it, and then the parts outside, in the reverse of
// the order in which they were cut off. The part inside an owner isn't made if no further plane
// would cut it.
fn add_pieces<W: Width>(
    alloc: Global,
    r: Ring<W>,
    cutter: &Cutter<W>,
    edges: &[Plane],
    out: &mut Vec<Ring<W>>,
) -> Result<(), OutOfMemory>
    requires valid { All W.IsPlane edges.now }
    requires cut_out { CutOutTriangle cutter.now.tri edges.now r }
    ensures { OnOk result (HasGrown (AreLeftByEdges cutter.now edges.now r) out.old.items out.new.items) }
{
    match edges {
        [] => match cutter.role {
            Role::Earlier => {}
            _ => out.push(r)?,
        },
        [p, rest @ ..] => match reach(&r, p) {
            Reach::Both => {
                if needs_no_inner_part(&r, cutter, rest) {
                    out.push(above(r, p)?)?;
                } else {
                    let (low, high) = parts(alloc, r, p)?;
                    add_pieces(alloc, low, cutter, rest, out)?;
                    out.push(high)?;
                }
            }
            _ => add_pieces(alloc, r, cutter, rest, out)?,
        },
    }
    Ok(())
}

// Adds what a triangle leaves of a region that meets it.
fn add_cut<W: Width>(
    alloc: Global,
    r: Ring<W>,
    cutter: &Cutter<W>,
    out: &mut Vec<Ring<W>>,
) -> Result<(), OutOfMemory>
    requires met { Meets r (face_of cutter.now.tri) }
    requires may_cut { CanCut cutter.now r }
    ensures { OnOk result (HasGrown (AreLeftByCutter cutter.now r) out.old.items out.new.items) }
{
    match cutter.role {
        Role::OtherPlane => add_parts(alloc, r, &cutter.support, out),
        _ => add_pieces(alloc, r, cutter, &cutter.edges, out),
    }
}

// Adds what a triangle leaves of each region. The first region is known to meet it.
fn add_all<W: Width>(
    alloc: Global,
    list: Vec<Ring<W>>,
    cutter: &Cutter<W>,
    out: &mut Vec<Ring<W>>,
) -> Result<(), OutOfMemory>
    requires met { MeetsFirst cutter.now list.items }
    requires may_cut { All (CanCut cutter.now) list.items }
    ensures { OnOk result (AddsSplit cutter.now list.items out.old.items out.new.items) }
{
    let mut is_first = true;
    for r in list {
        let is_cut = is_first || is_met(&r, cutter);
        is_first = false;
        if is_cut {
            add_cut(alloc, r, cutter, out)?;
        } else {
            out.push(r)?;
        }
    }
    Ok(())
}

// What one triangle leaves of the regions: it cuts each one that meets it.
fn split_all<W: Width>(
    alloc: Global,
    list: Vec<Ring<W>>,
    cutter: &Cutter<W>,
) -> Result<Vec<Ring<W>>, OutOfMemory>
    requires { All (CanCut cutter.now) list.items }
    ensures { IfOk result (λ out. AreSplit cutter.now list.items out.items) }
{
    let mut out = list;
    let index = count_apart(&out, cutter);
    if index < out.len() {
        let others = out.split_off(index)?;
        add_all(alloc, others, cutter, &mut out)?;
    }
    Ok(out)
}

/// Cuts a start by one triangle after another. Returns the regions in order, without those that one
/// of the triangles owns. The only error is out-of-memory.
pub fn regions<W: Width>(
    alloc: Global,
    start: Ring<W>,
    cutters: &[Cutter<W>],
) -> Result<Vec<Ring<W>>, OutOfMemory>
    requires { All (λ cutter. CanCut cutter start) cutters.now }
    ensures { IfOk result (λ out. AreCut cutters.now (start ∷ []) out.items) }
{
    let mut list = Vec::new(alloc);
    list.push(start)?;
    for cutter in cutters {
        list = split_all(alloc, list, cutter)?;
    }
    Ok(list)
}
