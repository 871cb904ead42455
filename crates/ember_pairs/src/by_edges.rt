// The answer of the tests by edge planes.

/// What the edge planes of two triangles show.
#[derive(Clone, Copy)]
pub enum ByEdges {
    /// The triangles don't meet.
    Apart,
    /// The triangles meet.
    Met,
    /// Not known.
    Unknown,
}
