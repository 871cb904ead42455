// An edge of a face, with its neighbours.
ghost use Rattle.std.specs.Prelude.{◌≡◌};
ghost use Rattle.mesh_solid.specs.Tables.Edges.{first_or, last_or};

use ember_model::Plane;

/// An edge of a face: the number of the face and its plane, the plane of the edge, and those of the
/// edges before and after it around the face.
#[derive(Clone, Copy)]
pub struct FaceEdge {
    pub face: usize,
    pub support: Plane,
    pub before: Plane,
    pub plane: Plane,
    pub after: Plane,
}

/// The first plane of the list, or `otherwise` if the list is empty.
pub fn first_or(edges: &[Plane], otherwise: &Plane) -> Plane
    ensures { result ≡ first_or otherwise.now edges.now }
{
    match edges.split_first() {
        Some((first, _)) => *first,
        None => *otherwise,
    }
}

/// The last plane of the list, or `otherwise` if the list is empty.
pub fn last_or(edges: &[Plane], otherwise: &Plane) -> Plane
    ensures { result ≡ last_or otherwise.now edges.now }
{
    match edges.last() {
        Some(last) => *last,
        None => *otherwise,
    }
}
