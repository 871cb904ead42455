// The faces of written regions in memory, by their outlines.
ghost use Rattle.std.specs.Prelude.{◌≡◌, ◌++◌, map, take, drop, reverse, IfOk};
ghost use Rattle.ember_model.specs.Faces.{flipped_face};
ghost use Rattle.ember_text.specs.Documents.{written_face};
ghost use Rattle.ember_text.specs.FacesInTexts.{AreFacesInTexts};
ghost use Rattle.ember_text.specs.OutlineFaces.{AreOutlineFaces, IsOutlineFace};

use crate::face::opposite_plane;
use ember_leaf::Kept;
use ember_model::{Face, OutOfMemory, Plane, Planes};
use ember_poly::{Ring, outline, support};
use ember_width::Width;
use std::alloc::Global;

// The face of the ring's outline.
fn face_of_outline<W: Width>(alloc: Global, r: &Ring<W>) -> Result<Face, OutOfMemory>
    ensures { IfOk result (IsOutlineFace W.Width r.now) }
{
    let (edges, _corners) = outline(r);
    let planes = Vec::from_slice(alloc, edges)?;
    Ok(Face {
        support: support(r),
        edges: Planes::of(planes),
    })
}

// Puts the planes of an outline into the order in which their edges lead around the face seen from
// behind: the first one stays first, and the others follow from the last one on.
fn turn(planes: &mut [Plane])
    ensures { planes.new ≡ take 1 planes.old ++ reverse (drop 1 planes.old) }
{
    if let Some((_first, others)) = planes.split_first_mut() {
        others.reverse();
    }
}

// The same with the opposite front.
fn flipped_face_of_outline<W: Width>(alloc: Global, r: &Ring<W>) -> Result<Face, OutOfMemory>
    ensures { IfOk result (IsOutlineFace W.Width (flipped_face r.now)) }
{
    let (edges, _corners) = outline(r);
    let mut planes = Vec::from_slice(alloc, edges)?;
    turn(&mut planes);
    Ok(Face {
        support: opposite_plane(&support(r)),
        edges: Planes::of(planes),
    })
}

// The face of a written region's outline. If the region is flipped, it is the face with the
// opposite front.
fn outline_face<W: Width>(alloc: Global, kept: &Kept<W>) -> Result<Face, OutOfMemory>
    ensures { IfOk result (IsOutlineFace W.Width (written_face kept.now)) }
{
    if kept.flipped {
        flipped_face_of_outline(alloc, &kept.ring)
    } else {
        face_of_outline(alloc, &kept.ring)
    }
}

/// The faces of the outlines of written regions, in order: of each face the support plane, and the
/// planes of its outline in order. If a region is flipped, it is the face with the opposite front.
/// The only error is out-of-memory.
pub fn outline_faces_on<W: Width>(alloc: Global, kept: &[Kept<W>]) -> Result<Vec<Face>, OutOfMemory>
    ensures { IfOk result (λ faces. AreOutlineFaces W.Width (map written_face kept.now) faces.items) }
{
    // Many lists wait side by side, so none gets room that it doesn't need.
    let mut faces = Vec::with_capacity(alloc, kept.len())?;
    for k in kept {
        faces.push(outline_face(alloc, k)?)?;
    }
    Ok(faces)
}

/// The same on the narrow grid: the faces as the text of these regions holds them.
pub fn outline_faces(alloc: Global, kept: &[Kept]) -> Result<Vec<Face>, OutOfMemory>
    ensures { IfOk result (λ faces. AreFacesInTexts (map written_face kept.now) faces.items) }
{
    outline_faces_on(alloc, kept)
}
