// The triangles near a box, with their planes and bounding boxes.
ghost use Rattle.std.specs.Prelude.{◌≡◌, All, IfOk};
ghost use Rattle.ember_algebra.specs.Size.{Small};
ghost use Rattle.ember_algebra.specs.Sign.{sgn};
ghost use Rattle.ember_model.specs.Within.{IsTriWithin};
ghost use Rattle.ember_model.specs.Planes.{value_at};
ghost use Rattle.ember_model.specs.Meshes.{HasMesh};
ghost use Rattle.ember_box.specs.Boxes.{in_steps};
ghost use Rattle.ember_box.specs.Aabbs.{most_wall};
ghost use Rattle.ember_ref.specs.References.{reference_of_list};
ghost use Rattle.ember_trace.specs.Lines.{first_lines_of};
ghost use Rattle.ember_trace.specs.NearTriangles.{AreNearTrianglesBeside};

use crate::near_triangle::NearTriangle;
use crate::path_limits::index_of;
use crate::reference_lines::first_lines;
use ember_box::{Cell, aabb_of_tri, lo_on};
use ember_model::{OutOfMemory, Tri, main_axis, main_edges, support_of};
use ember_ref::side_beside;
use ember_width::{Narrow, Width};
use std::alloc::Global;
use std::marker::PhantomData;

// A triangle near a box with the least corner `lo`, with what each path needs of it.
fn near_triangle_of<W: Width>(t: &Tri, lo: [i32; 3]) -> NearTriangle<W>
    requires within { IsTriWithin W.corner t.now }
    requires mesh { HasMesh 64 t.now }
    requires corner { All (Small most_wall) lo }
    ensures tri { result.tri ≡ t.now }
    ensures reference_side { result.reference_side ≡ sgn (value_at result.support (reference_of_list W.fine lo)) }
    ensures first_lines { result.first_lines ≡ first_lines_of W.fine lo t.now }
{
    let support = support_of(t);
    let aabb = aabb_of_tri(t);
    NearTriangle {
        tri: *t,
        support,
        main_index: index_of(main_axis(&support)),
        edges: main_edges(t, &support),
        aabb,
        intervals: [aabb.x, aabb.y, aabb.z],
        reference_side: side_beside(&support, lo),
        first_lines: first_lines::<W>(t, &aabb, lo),
        width: PhantomData,
    }
}

/// The triangles near a box, in order, each with its planes, its bounding box, and what it has of
/// the box's reference point on a grid. Meshes are numbered from 1 to 64. The only error is
/// out-of-memory.
pub fn near_triangles_on<W: Width>(
    alloc: Global,
    near: &[Tri],
    c: &Cell,
) -> Result<Vec<NearTriangle<W>>, OutOfMemory>
    requires within { All (IsTriWithin W.corner) near.now }
    requires numbered { All (HasMesh 64) near.now }
    ensures { IfOk result (λ v. AreNearTrianglesBeside W.fine near.now (in_steps W.scale c.now) v.items) }
{
    let lo = lo_on::<W>(c);
    let mut found = Vec::with_capacity(alloc, near.len())?;
    for t in near {
        found.push(near_triangle_of::<W>(t, lo))?;
    }
    Ok(found)
}
