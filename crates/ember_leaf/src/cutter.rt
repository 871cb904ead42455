// Triangles that cut the regions of another one.
ghost use Rattle.std.specs.Prelude.{◌≡◌, false, All};
ghost use Rattle.ember_model.specs.Limits.{broad_limit};
ghost use Rattle.ember_model.specs.Within.{IsTriWithin, IsSupportWithin, IsEdgeWithin};
ghost use Rattle.ember_model.specs.Planes.{support_of};
ghost use Rattle.ember_model.specs.Faces.{is_flat, edges_of};

use ember_model::{Plane, Tri};
use ember_width::{Narrow, Width};
use std::marker::PhantomData;

/// How a triangle cuts those regions of another one that its closed face touches.
#[derive(Clone, Copy)]
pub enum Role {
    /// In another plane: by its support plane.
    OtherPlane,
    /// In the same plane, with a higher index: by its edge planes.
    Later,
    /// In the same plane, with a lower index: by its edge planes. It owns each region that it
    /// contains.
    Earlier,
}

/// A triangle that cuts the regions of another one, on the narrow grid if no other is named.
#[derive(Drop)]
pub struct Cutter<W: Width = Narrow> {
    pub tri: Tri,
    pub support: Plane,
    pub edges: [Plane; 3],
    pub role: Role,
    pub width: PhantomData<W>,
    ghost normal: { is_flat tri ≡ false },
    ghost face: { support ≡ support_of tri },
    ghost edge_planes: { edges ≡ edges_of tri },
    ghost sized: { IsSupportWithin W.corner support },
    ghost edges_sized: { All (IsEdgeWithin W.corner) edges },
    ghost broad_tri: { IsTriWithin broad_limit tri },
}
