// The crossings of rays and segments with a scene.
ghost use Rattle.std.specs.Prelude.{◌≡◌, ℕ, ◌+◌, ◌≤◌, All, length};
ghost use Rattle.ember_model.specs.Limits.{count_limit, most_triangles};
ghost use Rattle.ember_algebra.specs.Size.{Small};
ghost use Rattle.ember_model.specs.Valid.{IsValidTri, IsValidSpot};
ghost use Rattle.ember_model.specs.Points.{DifferAlong};
ghost use Rattle.ember_model.specs.Meshes.{HasMesh, vector};
ghost use Rattle.ember_law.specs.Counts.{added, with_more, leg_vector, HasRoom};
ghost use Rattle.ember_law.specs.Laws.{AxesAgree, SegmentsGiveDifference, ClearSegmentsKeepVectors};

use ember_model::{Axis, Scene, Spot, Tri, Vector, crossing, leg};

/// Adds 1, 0 or -1 to the count of a mesh. Meshes are numbered from 1 to 64.
pub fn add_count(v: &mut Vector, mesh: u32, more: i32)
    requires first { 1 ≤ mesh }
    requires last { mesh ≤ 64 }
    requires more { Small 1 more }
    requires room { All (Small count_limit) v.old.counts }
    ensures value { v.new.counts ≡ with_more v.old.counts mesh more }
    ensures within { (m : ℕ) → All (Small m) v.old.counts → All (Small (m + 1)) v.new.counts }
{
    v.counts[mesh as usize - 1] += more;
}

/// Adds the crossings of the ray from the point along the axis with these triangles, each to the
/// count of its mesh. The meshes needn't be closed.
pub fn count_rays(tris: &[Tri], point: &Spot, axis: Axis, v: &mut Vector)
    requires valid { All IsValidTri tris.now }
    requires numbered { All (HasMesh 64) tris.now }
    requires few { length tris.now ≤ most_triangles }
    requires spot { IsValidSpot point.now }
    requires room { HasRoom v.old.counts }
    ensures value { v.new.counts ≡ added v.old.counts (vector axis tris.now point.now) }
    ensures within { (m : ℕ) → All (Small m) v.old.counts → All (Small (m + length tris.now)) v.new.counts }
{
    for t in tris {
        add_count(v, t.mesh, crossing(point, axis, t));
    }
}

/// Adds the crossings of the segment from `p` to `q` with these triangles, each to the count of its
/// mesh. The segment is parallel to the axis `a`. The meshes needn't be closed.
pub fn count_segments(tris: &[Tri], p: &Spot, q: &Spot, a: Axis, v: &mut Vector)
    requires valid { All IsValidTri tris.now }
    requires numbered { All (HasMesh 64) tris.now }
    requires few { length tris.now ≤ most_triangles }
    requires from { IsValidSpot p.now }
    requires to { IsValidSpot q.now }
    requires line { DifferAlong a p.now q.now }
    requires room { HasRoom v.old.counts }
    ensures value { v.new.counts ≡ added v.old.counts (leg_vector tris.now p.now q.now) }
    ensures within { (m : ℕ) → All (Small m) v.old.counts → All (Small (m + length tris.now)) v.new.counts }
{
    for t in tris {
        add_count(v, t.mesh, leg(p, q, a, t));
    }
}

/// Adds to the count of each mesh the signed crossings of the ray from `p` along the axis with
/// the mesh's faces. For a clear point these are its winding numbers there, whatever the axis.
/// The counts leave room for the triangles of a scene: they are at most 2^24 - 262,144 in size.
pub fn axis_count(s: &Scene, p: &Spot, a: Axis, v: &mut Vector)
    requires spot { IsValidSpot p.now }
    requires room { HasRoom v.old.counts }
    ensures value { v.new.counts ≡ added v.old.counts (vector a s.now.tris p.now) }
    ensures within { (m : ℕ) → All (Small m) v.old.counts → All (Small (m + length s.now.tris)) v.new.counts }
    ensures law { AxesAgree s.now.tris }
{
    count_rays(s.tris.items(), p, a, v);
}

/// Adds to the count of each mesh the signed crossings of the segment from `p` to `q` with the
/// mesh's faces: 1 if the segment from `p` to `q` leaves through the front. For clear points these
/// are the winding numbers at `p` less those at `q`. As points of space `p` and `q` differ at most
/// in the coordinate of the axis. The counts leave room as for `axis_count`. Only tests call this.
pub fn leg_count(s: &Scene, p: &Spot, q: &Spot, a: Axis, v: &mut Vector)
    requires from { IsValidSpot p.now }
    requires to { IsValidSpot q.now }
    requires line { DifferAlong a p.now q.now }
    requires room { HasRoom v.old.counts }
    ensures value { v.new.counts ≡ added v.old.counts (leg_vector s.now.tris p.now q.now) }
    ensures within { (m : ℕ) → All (Small m) v.old.counts → All (Small (m + length s.now.tris)) v.new.counts }
    ensures law { SegmentsGiveDifference s.now.tris }
    ensures segments { ClearSegmentsKeepVectors s.now.tris }
{
    count_segments(s.tris.items(), p, q, a, v);
}
