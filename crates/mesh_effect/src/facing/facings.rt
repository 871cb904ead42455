// How triangles face after their corners were rounded.

/// How many triangles have no area, and how many are turned over: seen from the front of their
/// plane, their corners go round clockwise.
#[derive(Clone, Copy, Debug, PartialEq, Eq)]
pub struct Facings {
    pub without_area: u64,
    pub turned_over: u64,
}
