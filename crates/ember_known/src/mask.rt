// Sets of meshes.
ghost use Rattle.std.specs.Prelude.{◌≡◌, ℕ, true, false, ◌==◌, ◌||◌};
ghost use Rattle.ember_expr.specs.Formula.{IsMeshNumber};
ghost use Rattle.ember_known.specs.Masks.{is_in};

/// The meshes that are undecided: bit `i - 1` is set if mesh `i` is.
#[derive(Clone, Copy, Debug, PartialEq, Eq)]
pub struct Mask(pub u64);

impl Mask {
    /// The empty set.
    pub fn none() -> Mask
        ensures { (mesh : ℕ) → is_in result.0 mesh ≡ false }
    {
        Mask(0)
    }

    /// These meshes and one more, from 1 to 64.
    pub fn with(self, mesh: u32) -> Mask
        requires { IsMeshNumber 64 mesh }
        ensures { (other : ℕ) → IsMeshNumber 64 other → is_in result.0 other ≡ (other == mesh || is_in self.0 other) }
    {
        Mask(self.0 | 1u64 << (mesh - 1))
    }

    /// Whether a mesh, from 1 to 64, is among them.
    pub fn has(self, mesh: u32) -> bool
        requires { IsMeshNumber 64 mesh }
        ensures { result ≡ is_in self.0 mesh }
    {
        self.0 >> (mesh - 1) & 1 == 1
    }
}
