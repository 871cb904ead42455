// Boxes of one value.
ghost use Rattle.std.specs.Prelude.{◌≡◌};

use ember_box::Cell;
use std::marker::Model;

/// A box, and the one value that the expression has at its lattice cells.
#[derive(Drop)]
pub struct Fill {
    pub cell: Cell,
    pub bit: bool,
}

/// A list of boxes of one value.
#[derive(Drop)]
pub struct FillList {
    fills: Vec<Fill>,
}

impl Model for FillList {
    ghost use Rattle.std.specs.Prelude.{List};
    ghost use Rattle.ember_voxel.specs.declared.fill.Fill.{Fill};
    ghost use Rattle.ember_voxel.specs.Codes.{fills_code};

    ghost Value = { List Fill };

    ghost coded = { fills_code };

    ghost view = { λ s. s.fills.items };
}

impl FillList {
    /// The list of these boxes.
    pub fn of(fills: Vec<Fill>) -> FillList
        ensures { result ≡ fills.items }
    {
        FillList { fills }
    }

    /// The boxes in order.
    pub fn items(&self) -> &[Fill]
        ensures { result.now ≡ self.now }
    {
        &self.fills
    }

    /// The boxes as a vector.
    pub fn into_vec(self) -> Vec<Fill>
        ensures { result.items ≡ self }
    {
        self.fills
    }
}
