// Where triangles come from.

/// Where a triangle of a mesh comes from: the first triangle of the scene, in its order, that lies in
/// its plane and isn't apart from it.
#[derive(Clone, Copy, Debug, PartialEq, Eq)]
pub struct Source {
    /// The number of this triangle in the scene, from 0.
    pub triangle: u32,
    /// Whether it faces the other way.
    pub turned: bool,
    /// Whether there is another such triangle.
    pub several: bool,
}
