// Triangles by their edges.
use crate::certificate::segment::Segment;

/// A triangle by its three edges, in the order in which they lead round it.
#[derive(Clone, Copy, Debug, PartialEq, Eq)]
pub struct Triangle {
    pub first: Segment,
    pub second: Segment,
    pub third: Segment,
}
