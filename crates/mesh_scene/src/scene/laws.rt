// Closed surfaces are closed on every grid.
ghost use Rattle.std.specs.Prelude.{List, All};
ghost use Rattle.mesh_grid.specs.Snap.Steps.{IsStep};
ghost use Rattle.mesh_read.specs.declared.surface.surface.Surface.{Surface};
ghost use Rattle.mesh_grid.specs.declared.grid.grid.Grid.{Grid};
ghost use Rattle.mesh_grid.specs.Grid.Closed.{IsSurfaceClosed};
ghost use Rattle.mesh_scene.specs.declared.scene.fault.Open.{Open};
ghost use Rattle.mesh_scene.specs.Scene.Faults.{IsFirstOpen};

/// Of surfaces that are closed by the exact positions of their corners, none is open on a grid.
pub fn closed_surfaces_are_never_open()
    ensures { (g : Grid) (surfaces : List Surface) (o : Open) →
        IsStep g.step → All IsSurfaceClosed surfaces → IsFirstOpen g surfaces o → ⊥ }
{}
