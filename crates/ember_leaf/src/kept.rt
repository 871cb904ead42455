// The regions that are written.
ghost use Rattle.std.specs.Prelude.{◌≡◌};

use ember_poly::Ring;
use ember_width::{Narrow, Width};
use std::marker::Model;

/// A written region (`ring`), the index of its triangle among those near its leaf, and whether it
/// is flipped: whether it is written with the negative of the triangle's normal. On the narrow grid
/// if no other is named.
#[derive(Drop)]
pub struct Kept<W: Width = Narrow> {
    pub tri: u32,
    pub flipped: bool,
    pub ring: Ring<W>,
}

/// A list of written regions, on the narrow grid if no other is named.
#[derive(Drop)]
pub struct KeptList<W: Width = Narrow> {
    kept: Vec<Kept<W>>,
}

impl<W: Width> Model for KeptList<W> {
    ghost use Rattle.std.specs.Prelude.{List};
    ghost use Rattle.ember_leaf.specs.declared.kept.Kept.{Kept};

    ghost Value = { List (Kept W W.Point) };

    ghost view = { λ s. s.kept.items };
}

impl<W: Width> KeptList<W> {
    /// The list of these regions.
    pub fn of(kept: Vec<Kept<W>>) -> KeptList<W>
        ensures { result ≡ kept.items }
    {
        KeptList { kept }
    }

    /// The regions in order.
    pub fn items(&self) -> &[Kept<W>]
        ensures { result.now ≡ self.now }
    {
        &self.kept
    }

    /// The regions as a vector.
    pub fn into_vec(self) -> Vec<Kept<W>>
        ensures { result.items ≡ self }
    {
        self.kept
    }
}
