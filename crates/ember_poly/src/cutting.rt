// Rings cut by planes.
ghost use Rattle.std.specs.Prelude.{◌≡◌, IfOk};
ghost use Rattle.ember_width.specs.Broad.{IsBroadPlane};
ghost use Rattle.ember_model.specs.Planes.{opposite};
ghost use Rattle.ember_model.specs.Faces.{Cuts, below, above};
ghost use Rattle.ember_poly.specs.Cuts.{AreParts, IsClip, IsCut};

use crate::draft::draft_of;
use crate::reach_and_cut::{Cut, Reach};
use crate::reaching::reach;
use crate::ring::{Ring, copy};
use ember_model::{OutOfMemory, Plane};
use ember_width::Width;
use std::alloc::Global;

// The same plane with the opposite front.
fn opposite(p: &Plane) -> Plane
    requires { IsBroadPlane p.now }
    ensures { result ≡ opposite p.now }
{
    Plane {
        a: -p.a,
        b: -p.b,
        c: -p.c,
        d: -p.d,
    }
}

/// What a plane leaves of a ring: the part below it if inside points are on both sides, the
/// ring itself if they are on one side or on the plane, and which of these it is.
pub fn clip<W: Width>(r: Ring<W>, plane: &Plane) -> Result<(Reach, Ring<W>), OutOfMemory>
    requires { W.IsPlane plane.now }
    ensures { IfOk result (λ left. IsClip r plane.now left.0 left.1) }
{
    let mut draft = draft_of(r);
    let side = draft.clip(plane)?;
    Ok((side, draft.into_ring()))
}

// The part below a plane that has inside points of the ring on both sides.
fn below<W: Width>(r: Ring<W>, p: &Plane) -> Result<Ring<W>, OutOfMemory>
    requires plane { W.IsPlane p.now }
    requires cuts { Cuts r p.now }
    ensures { IfOk result (λ part. part ≡ below r p.now) }
{
    let (_, low) = clip(r, p)?;
    Ok(low)
}

/// The part above a plane that has inside points of the ring on both sides: it has the opposite
/// plane.
pub fn above<W: Width>(r: Ring<W>, p: &Plane) -> Result<Ring<W>, OutOfMemory>
    requires plane { W.IsPlane p.now }
    requires cuts { Cuts r p.now }
    ensures { IfOk result (λ part. part ≡ above r p.now) }
{
    below(r, &opposite(p))
}

/// The parts below and above a plane that has inside points of the ring on both sides: the part
/// above has the opposite plane.
pub fn parts<W: Width>(
    alloc: Global,
    r: Ring<W>,
    plane: &Plane,
) -> Result<(Ring<W>, Ring<W>), OutOfMemory>
    requires plane { W.IsPlane plane.now }
    requires cuts { Cuts r plane.now }
    ensures { IfOk result (λ both. AreParts r plane.now both.0 both.1) }
{
    let high = above(copy(alloc, &r)?, plane)?;
    let low = below(r, plane)?;
    Ok((low, high))
}

/// Cuts a ring by a plane: the part below has the plane as one more edge plane, the part above
/// has its opposite. Only tests call this.
pub fn cut<W: Width>(alloc: Global, r: &Ring<W>, p: &Plane) -> Result<Cut<W>, OutOfMemory>
    requires { W.IsPlane p.now }
    ensures { IfOk result (λ c. IsCut r.now p.now c) }
{
    match reach(r, p) {
        Reach::Below => Ok(Cut::Below),
        Reach::Above => Ok(Cut::Above),
        Reach::On => Ok(Cut::On),
        Reach::Both => {
            let (low, high) = parts(alloc, copy(alloc, r)?, p)?;
            Ok(Cut::Both(low, high))
        }
    }
}
