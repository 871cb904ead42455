// Moves are shown as they are, or greater.
ghost use Rattle.std.specs.Prelude.{◌<◌, ℕ, List};
ghost use Rattle.mesh_certificate.specs.declared.certificate.triangle.Triangle.{Triangle};
ghost use Rattle.mesh_effect.specs.declared.rounding.tick.Tick.{Tick};
ghost use Rattle.mesh_effect.specs.Rounding.NotBelow.{AreNotAbove, IsNotBelow, TicksAreNotBelow, greatest_square};
ghost use Rattle.mesh_effect.specs.Rounding.Shown.{move_from};

/// Moves are never shown below the true ones. Ticks aren't below the distance of two numbers, no
/// triangle has a square that is above the greatest, and the square of a shown move isn't below
/// that of the true one.
pub fn moves_are_not_below_the_true_ones()
    ensures ticks { (tick : Tick) → TicksAreNotBelow tick }
    ensures greatest { (squares : List ℕ) (ts : List Triangle) →
        AreNotAbove squares ts (greatest_square squares ts) }
    ensures shown { (tick : Tick) (square : ℕ) → 0 < tick.denominator →
        IsNotBelow tick square (move_from tick square) }
{}
