// Whether two lists of segments have the same chains.
ghost use Rattle.std.specs.Prelude.{◌≡◌, ◌↔◌, map, IfOk, IsTrue};
ghost use Rattle.mesh_certificate.specs.Certificate.Chains.{HaveSameBoundary, HaveSameChains};
ghost use Rattle.mesh_certificate.specs.Certificate.Keys.{segment_key};

use crate::certificate::keys::segment_key;
use crate::certificate::order::{BELOW_PLANE_OF_SEGMENT, are_rearranged, sort_by_stretches};
use crate::certificate::segment::Segment;
use crate::certificate::unmatched::{SegmentEnds, unmatched_ends};
use ember_model::OutOfMemory;
use std::alloc::Global;

fn segment_keys(alloc: Global, segments: &[Segment]) -> Result<Vec<u128>, OutOfMemory>
    ensures { IfOk result (λ keys. keys.items ≡ map segment_key segments.now) }
{
    let mut keys = Vec::with_capacity(alloc, segments.len())?;
    for s in segments {
        keys.push(segment_key(s))?;
    }
    Ok(keys)
}

/// Whether the segments of the faces and those of the triangles have the same chain over every
/// point of every line of every plane. A segment that both have needs no comparison of its ends.
pub fn same_chains(
    alloc: Global,
    faces: &[Segment],
    triangles: &[Segment],
) -> Result<bool, OutOfMemory>
    ensures boundary { IfOk result (λ same. IsTrue same ↔ HaveSameBoundary faces.now triangles.now) }
    ensures chains { IfOk result (λ same. IsTrue same ↔ HaveSameChains faces.now triangles.now) }
{
    let mut of_faces = segment_keys(alloc, faces)?;
    let mut of_triangles = segment_keys(alloc, triangles)?;
    of_faces.sort_unstable();
    sort_by_stretches(&mut of_triangles, BELOW_PLANE_OF_SEGMENT);
    let SegmentEnds { starts, ends } = unmatched_ends(alloc, &of_faces, &of_triangles)?;
    Ok(are_rearranged(starts, ends))
}
