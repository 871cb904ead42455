// Closed surfaces stay closed.
ghost use Rattle.std.specs.Prelude.{ℕ, List};
ghost use Rattle.mesh_read.specs.declared.surface.surface.Facet.{Facet};
ghost use Rattle.ember_model.specs.declared.point.Corner.{Corner};
ghost use Rattle.ember_model.specs.Meshes.{IsBalanced};
ghost use Rattle.mesh_grid.specs.Grid.Images.{images};
ghost use Rattle.mesh_grid.specs.Grid.Closed.{AreClosed};

/// Closed triangles stay closed under each map of positions, without those that have two equal
/// corners there.
pub fn maps_keep_meshes_closed()
    ensures { (position : ℕ → ℕ) (to : ℕ → Corner) (mesh : ℕ) (fs : List Facet) →
        AreClosed position fs → IsBalanced (images (λ corner. to (position corner)) mesh fs) }
{}
