// The sizes of grids.
ghost use Rattle.std.specs.Prelude.{◌≡◌, ◌*◌, pos};
ghost use Rattle.mesh_grid.specs.Snap.Sizes.{limit_of};

/// How far a grid reaches along each axis.
#[derive(Clone, Copy, Debug, PartialEq, Eq)]
pub enum GridSize {
    /// From -2047 to 2047.
    Narrow,
    /// From -524,287 to 524,287.
    Broad,
}

impl GridSize {
    /// The greatest number on the grid.
    pub fn limit(self) -> i128
        ensures { result ≡ pos (limit_of self) }
    {
        match self {
            GridSize::Narrow => 2047,
            GridSize::Broad => 524_287,
        }
    }

    /// How many steps it is from the least number to the greatest.
    pub fn steps(self) -> i128
        ensures { result ≡ pos (2 * limit_of self) }
    {
        match self {
            GridSize::Narrow => 4094,
            GridSize::Broad => 1_048_574,
        }
    }
}
