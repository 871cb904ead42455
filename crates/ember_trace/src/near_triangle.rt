// Triangles near a box, with what each path needs of them.
ghost use Rattle.std.specs.Prelude.{◌≡◌, All, [], ◌∷◌};
ghost use Rattle.ember_model.specs.Limits.{broad_limit};
ghost use Rattle.ember_model.specs.Within.{IsTriWithin, IsSupportWithin, IsEdgeWithin};
ghost use Rattle.ember_model.specs.Planes.{support_of, main_axis};
ghost use Rattle.ember_model.specs.Faces.{edges_of};
ghost use Rattle.ember_model.specs.Meshes.{HasMesh};
ghost use Rattle.ember_width.specs.Broad.{IsBroadPlane};
ghost use Rattle.ember_box.specs.Aabbs.{aabb_of_tri};
ghost use Rattle.ember_box.specs.Boxes.{axis_index};

use ember_algebra::Sign;
use ember_box::{Aabb, Interval};
use ember_model::{Plane, Tri};
use ember_width::{Narrow, Width};
use std::marker::PhantomData;

/// A triangle near a box, with its support plane, the index of its main axis, its edge planes
/// parallel to this axis, and its bounding box. `intervals` has the bounding box once more, as a
/// list: there the index of an axis finds an interval without a jump. Of the box's reference point
/// it has the side of the support plane on which the point lies, and in `first_lines`, for each
/// main axis of a path, whether the line of the first segment runs through the triangle. It is on
/// the narrow grid if no other is named.
#[derive(Drop)]
pub struct NearTriangle<W: Width = Narrow> {
    pub tri: Tri,
    pub support: Plane,
    pub main_index: usize,
    pub edges: [Plane; 3],
    pub aabb: Aabb,
    pub intervals: [Interval; 3],
    pub reference_side: Sign,
    pub first_lines: [bool; 3],
    pub width: PhantomData<W>,
    ghost valid: { IsTriWithin W.corner tri },
    ghost mesh: { HasMesh 64 tri },
    ghost plane: { support ≡ support_of tri },
    ghost sized: { IsSupportWithin W.corner support },
    ghost edge_planes: { edges ≡ edges_of tri },
    ghost edges_sized: { All (IsEdgeWithin W.corner) edges },
    ghost broad_tri: { IsTriWithin broad_limit tri },
    ghost broad_support: { IsBroadPlane support },
    ghost broad_edges: { All IsBroadPlane edges },
    ghost bounds: { aabb ≡ aabb_of_tri tri },
    ghost main: { main_index ≡ axis_index (main_axis support) },
    ghost by_axes: { intervals ≡ aabb.x ∷ aabb.y ∷ aabb.z ∷ [] },
}
