// The numbers of triangles of a surface.

/// How many triangles a surface has, and what becomes of them on a grid.
#[derive(Clone, Copy, Debug, PartialEq, Eq)]
pub struct Counts {
    /// All its triangles.
    pub triangles: u64,
    /// Those with two corners that are equal on the grid. The mesh is without them.
    pub vanished: u64,
    /// Those with three different corners on one line of the grid.
    pub flat: u64,
}
