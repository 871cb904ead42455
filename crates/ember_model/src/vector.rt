// Winding numbers of all meshes at a point.

/// The winding numbers of the meshes at a point: entry `i - 1` belongs to mesh `i`, and the
/// entries past the last mesh are 0.
#[derive(Clone, Copy, Debug, PartialEq, Eq)]
pub struct Vector {
    pub counts: [i32; 64],
}
