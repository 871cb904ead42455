// A triangle at an edge.
ghost use Rattle.mesh_manifold.specs.Turns.{IsNormal};

use crate::turns::Normal;

/// A triangle at an edge: the normal of its plane, as if its own edge led forward, and the corner
/// at which its edge starts.
#[derive(Clone, Copy, Debug, PartialEq, Eq)]
pub struct EdgeTriangle {
    pub normal: Normal,
    pub is_back: bool,
    pub corner: usize,
    ghost small: { IsNormal normal },
}
