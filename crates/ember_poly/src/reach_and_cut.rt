// How a ring lies relative to a plane.
use crate::ring::Ring;
use ember_width::{Narrow, Width};

/// On which sides of a plane the inside points of a ring lie.
#[derive(Clone, Copy, Debug, PartialEq, Eq)]
pub enum Reach {
    /// All on the negative side.
    Below,
    /// All on the positive side.
    Above,
    /// All on the plane.
    On,
    /// Some strictly on each side.
    Both,
}

/// A ring cut by a plane: the side on which the ring lies, or its two parts. On the narrow grid if no
/// other is named.
#[derive(Drop)]
pub enum Cut<W: Width = Narrow> {
    /// All inside points are on the negative side.
    Below,
    /// All inside points are on the positive side.
    Above,
    /// All inside points are on the plane.
    On,
    /// The part below the plane and the part above it.
    Both(Ring<W>, Ring<W>),
}
