// The law of decided values.
ghost use Rattle.std.specs.Prelude.{◌≡◌, ℕ, Bool, ℤ, List, Some};
ghost use Rattle.ember_expr.specs.Formula.{Formula, IsFit};
ghost use Rattle.ember_expr.specs.Truth.{truth};
ghost use Rattle.ember_known.specs.Known.{known};
ghost use Rattle.ember_known.specs.Laws.{AgreeOutside};

/// If the three-valued truth is decided, it is the truth at each vector that agrees with
/// this one at all meshes except the undecided ones.
pub fn decided_is_true()
    ensures { (undecided : ℕ → Bool) (counts others : List ℤ) (f : Formula) (b : Bool) → IsFit 64 f →
        AgreeOutside undecided counts others → known undecided counts f ≡ Some b → truth others f ≡ b }
{}
