// Moves are shown as they are, or greater.
ghost use Rattle.std.specs.Prelude.{◌≤◌, ◌<◌, ◌*◌, ◌^◌, ℕ, List, All};
ghost use Rattle.mesh_number.specs.Number.Fractions.{Fraction};
ghost use Rattle.mesh_grid.specs.declared.snap.steps.GridStep.{GridStep};
ghost use Rattle.mesh_read.specs.declared.surface.surface.Vertex.{Vertex};
ghost use Rattle.mesh_read.specs.declared.surface.surface.Facet.{Facet};
ghost use Rattle.mesh_grid.specs.Moves.Moves.{scaled_distance, ticks_of};
ghost use Rattle.mesh_grid.specs.Moves.Greatest.{facet_square, greatest_square};
ghost use Rattle.mesh_grid.specs.Moves.Shown.{root_above, length_from};

/// Moves are never shown below the true ones. Ticks aren't below the distance along an axis, no
/// triangle has a square that is above the greatest, and the square of a shown length isn't below
/// that of the move.
pub fn moves_are_not_below_the_true_ones()
    ensures ticks { (s : GridStep) (fineness : ℕ) (v : Fraction) → 0 < v.denominator →
        fineness * scaled_distance s v ≤ v.denominator * ticks_of s fineness v }
    ensures greatest { (s : GridStep) (fineness : ℕ) (vertices : List Vertex) (fs : List Facet) →
        All (λ f. facet_square s fineness vertices f ≤ greatest_square s fineness vertices fs) fs }
    ensures shown { (square under : ℕ) → 0 < under →
        let l = length_from (root_above square) under in
        square * (10 ^ l.places * 10 ^ l.places) ≤ under * l.size * (under * l.size) }
{}
