// The heights of a triangle over the edge planes of another.
ghost use Rattle.std.specs.Prelude.{◌≡◌, All, None, Some, if◌then◌else◌, IfSome};
ghost use Rattle.ember_model.specs.Valid.{IsValidTri};
ghost use Rattle.ember_model.specs.Planes.{support_of};
ghost use Rattle.ember_model.specs.Faces.{edges_of};
ghost use Rattle.ember_pairs.specs.Heights.{AreSmall, heights_over, lies_beyond_some};

use crate::heights::small_heights;
use ember_model::{Plane, Tri, main_edges};
use ember_width::Heights;

/// The heights of `u` over the three edge planes of `t`, or `None` if it lies beyond one of them.
/// `support` is the plane of `t`.
pub fn edge_heights(t: &Tri, support: &Plane, u: &Tri) -> Option<[Heights; 3]>
    requires one { IsValidTri t.now }
    requires other { IsValidTri u.now }
    requires support { support.now ≡ support_of t.now }
    ensures value { let hs = heights_over (edges_of t.now) u.now in
        result ≡ (if lies_beyond_some hs then None else Some hs) }
    ensures small { IfSome result (λ hs. All AreSmall hs) }
{
    let edges = main_edges(t, support);
    let first = small_heights(&edges[0], u);
    if first.lie_in_front() {
        return None;
    }
    let second = small_heights(&edges[1], u);
    if second.lie_in_front() {
        return None;
    }
    let third = small_heights(&edges[2], u);
    if third.lie_in_front() {
        return None;
    }
    Some([first, second, third])
}
