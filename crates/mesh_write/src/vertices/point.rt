// Points of decimals, and triangles over them.

/// A point whose coordinates are whole numbers of units of the last decimal place.
#[derive(Clone, Copy, Debug, PartialEq, Eq, Hash)]
pub struct DecimalPoint {
    pub x: i128,
    pub y: i128,
    pub z: i128,
}

/// A triangle by its corners, counter-clockwise seen from outside.
#[derive(Clone, Copy, Debug, PartialEq, Eq)]
pub struct DecimalTriangle {
    pub a: DecimalPoint,
    pub b: DecimalPoint,
    pub c: DecimalPoint,
}

/// A triangle by the indices of its corners among the vertices of a mesh, in the same order.
#[derive(Clone, Copy, Debug, PartialEq, Eq)]
pub struct IndexedTriangle {
    pub a: usize,
    pub b: usize,
    pub c: usize,
}
