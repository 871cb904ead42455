// Faces that planes clip in place.
ghost use Rattle.std.specs.Prelude.{◌≡◌, ◌<◌, false, length, All, IfOk, OnOk};
ghost use Rattle.ember_model.specs.Within.{IsTriWithin};
ghost use Rattle.ember_model.specs.Planes.{support_of};
ghost use Rattle.ember_model.specs.Faces.{is_flat, face_of, edges_of, below};
ghost use Rattle.ember_poly.specs.Boundaries.{sides};
ghost use Rattle.ember_poly.specs.Passages.{IsPassage};
ghost use Rattle.ember_poly.specs.Cuts.{IsClip};
ghost use Rattle.ember_poly.specs.Drafts.{face_in, HoldsRing};

use crate::boundary::{Boundary, put_corners, with_room};
use crate::passage::{Passage, classify, find_passage};
use crate::reach_and_cut::Reach;
use crate::ring::Ring;
use ember_model::{OutOfMemory, Plane, Tri};
use ember_width::{Narrow, Width};
use std::alloc::{AllocError, Global};

/// A convex face with its corners, which planes clip in place, on the narrow grid if no other is
/// named. Its lists keep their room for the next face.
#[derive(Drop)]
pub struct Draft<W: Width = Narrow> {
    support: Plane,
    planes: Vec<Plane>,
    boundary: Boundary<W>,
}

// Replaces all items of a list.
fn refill<T: Copy>(list: &mut Vec<T>, items: &[T]) -> Result<(), AllocError>
    ensures { OnOk result (list.new.items ≡ items.now) }
{
    list.clear();
    list.extend_from_slice(items)
}

/// Turns a ring into a draft of the same face.
pub fn draft_of<W: Width>(r: Ring<W>) -> Draft<W>
    ensures ring { HoldsRing W.IsPlane W.spot result }
    ensures face { face_in result ≡ r }
{
    let Ring {
        support,
        planes,
        boundary,
    } = r;
    Draft {
        support,
        planes,
        boundary,
    }
}

impl<W: Width> Draft<W> {
    /// A draft without a face.
    pub fn new(alloc: Global) -> Draft<W> {
        Draft {
            support: Plane {
                a: 0,
                b: 0,
                c: 0,
                d: 0,
            },
            planes: Vec::new(alloc),
            boundary: Boundary::new(alloc),
        }
    }

    /// Replaces the face by that of a triangle, which has this support plane and these edge planes.
    pub fn begin(&mut self, t: &Tri, support: &Plane, edges: &[Plane]) -> Result<(), OutOfMemory>
        requires tri { IsTriWithin W.corner t.now }
        requires normal { is_flat t.now ≡ false }
        requires support { support.now ≡ support_of t.now }
        requires edges { edges.now ≡ edges_of t.now }
        requires sized { All W.IsPlane edges.now }
        ensures ring { OnOk result (HoldsRing W.IsPlane W.spot self.new) }
        ensures face { OnOk result (face_in self.new ≡ face_of t.now) }
    {
        refill(&mut self.planes, edges)?;
        refill(&mut self.boundary.edges, edges)?;
        put_corners::<W>(&mut self.boundary.corners, t)?;
        refill(&mut self.boundary.plane_indices, &[0, 1, 2])?;
        self.support = *support;
        Ok(())
    }

    // Keeps the part below a plane that cuts the ring.
    fn keep_part(&mut self, p: &Plane, passage: &Passage<W>) -> Result<(), OutOfMemory>
        requires plane { W.IsPlane p.now }
        requires ring { HoldsRing W.IsPlane W.spot self.old }
        requires passage { IsPassage W.spot self.old.support p.now (sides W.spot self.old.boundary) passage.now }
        requires below_count { passage.now.below_count < length self.old.boundary.edges.items }
        ensures ring { OnOk result (HoldsRing W.IsPlane W.spot self.new) }
        ensures part { OnOk result (face_in self.new ≡ below (face_in self.old) p.now) }
    {
        let plane_index = self.planes.len();
        self.planes.push(*p)?;
        self.boundary.close(passage, *p, plane_index)?;
        self.boundary.rotate_to_oldest();
        Ok(())
    }

    /// Cuts the part above a plane off, if inside points of the face are on both sides of it.
    /// Otherwise the face stays unchanged, even if all of it is above: then the caller drops it.
    /// Returns on which sides of the plane the inside points were.
    pub fn clip(&mut self, plane: &Plane) -> Result<Reach, OutOfMemory>
        requires plane { W.IsPlane plane.now }
        requires ring { HoldsRing W.IsPlane W.spot self.old }
        ensures ring { OnOk result (HoldsRing W.IsPlane W.spot self.new) }
        ensures part { IfOk result (λ side. IsClip (face_in self.old) plane.now side (face_in self.new)) }
    {
        let classified = classify::<W>(plane, self.boundary.corners.as_slice());
        match classified.reach {
            Reach::Both => {
                let passage = find_passage(&self.support, &self.boundary, plane, &classified);
                self.keep_part(plane, &passage)?;
                Ok(Reach::Both)
            }
            other => Ok(other),
        }
    }

    /// The face as a ring, with room for this many cuts.
    pub fn ring(&self, alloc: Global, room: usize) -> Result<Ring<W>, OutOfMemory>
        requires { HoldsRing W.IsPlane W.spot self.now }
        ensures { IfOk result (λ r. r ≡ face_in self.now) }
    {
        let planes = with_room(alloc, self.planes.as_slice(), room)?;
        let boundary = self.boundary.copy(alloc, room)?;
        Ok(Ring {
            support: self.support,
            planes,
            boundary,
        })
    }

    /// Turns the draft into a ring of the same face.
    pub fn into_ring(self) -> Ring<W>
        requires { HoldsRing W.IsPlane W.spot self }
        ensures { result ≡ face_in self }
    {
        let Draft {
            support,
            planes,
            boundary,
        } = self;
        Ring {
            support,
            planes,
            boundary,
        }
    }
}
