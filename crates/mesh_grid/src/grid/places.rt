// The places of edges.
ghost use Rattle.std.specs.Prelude.{◌≡◌, length, All, false, MatchOption};
ghost use Rattle.ember_model.specs.Meshes.{same_edge};
ghost use Rattle.mesh_grid.specs.Grid.Places.{has_edge, IsPlaceOf};

use ember_model::{Corner, Tri, is_same_corner};

// Whether the edge from `start` to `end` is the one from `from` to `to`.
fn is_edge(start: &Corner, end: &Corner, from: &Corner, to: &Corner) -> bool
    ensures { result ≡ same_edge
        (record { from = from.now; to = to.now })
        (record { from = start.now; to = end.now }) }
{
    is_same_corner(from, start) && is_same_corner(to, end)
}

// Whether the triangle has this directed edge.
fn has_edge(tri: &Tri, from: &Corner, to: &Corner) -> bool
    ensures { result ≡ has_edge (record { from = from.now; to = to.now }) tri.now }
{
    is_edge(&tri.a, &tri.b, from, to)
        || (is_edge(&tri.b, &tri.c, from, to) || is_edge(&tri.c, &tri.a, from, to))
}

/// The place of the first triangle with this directed edge, if there is one. `places` has the place
/// of each triangle.
pub fn place_of_edge(tris: &[Tri], places: &[u32], from: &Corner, to: &Corner) -> Option<u32>
    requires { length tris.now ≡ length places.now }
    ensures { MatchOption result
        (All (λ t. has_edge (record { from = from.now; to = to.now }) t ≡ false) tris.now)
        (IsPlaceOf (record { from = from.now; to = to.now }) tris.now places.now) }
{
    for index in 0..tris.len() {
        if has_edge(&tris[index], from, to) {
            return Some(places[index]);
        }
    }
    None
}
