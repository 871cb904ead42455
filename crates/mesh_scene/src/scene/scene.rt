// The scene of surfaces.
ghost use Rattle.std.specs.Prelude.{◌≡◌, ◌≤◌, ◌<◌, ◌++◌, [], ◌∷◌, length, map, All, IfOk, IfErr, OnOk};
ghost use Rattle.std.specs.List.{take_while};
ghost use Rattle.ember_model.specs.Limits.{most_triangles};
ghost use Rattle.mesh_grid.specs.Snap.Steps.{IsStep};
ghost use Rattle.ember_model.specs.Meshes.{IsBalanced};
ghost use Rattle.mesh_grid.specs.Grid.Corners.{Lands};
ghost use Rattle.mesh_grid.specs.Grid.Grids.{IsWithinLimit, IsChoice, IsGrid};
ghost use Rattle.mesh_grid.specs.Moves.Shown.{AreMoves};
ghost use Rattle.mesh_scene.specs.Scene.Images.{meshes_on, images_of, counts_on};
ghost use Rattle.mesh_scene.specs.Scene.Faults.{has_few, IsFaultOn, IsSceneFault};

use crate::scene::counting::count_all;
use crate::scene::counts::Counts;
use crate::scene::fault::SceneFault;
use crate::scene::surface::{PlacedSurface, SurfaceFault, place_surface};
use ember_mesh::{Closed, Parts, join};
use ember_model::{OutOfMemory, Scene};
use mesh_grid::{Grid, Length, Wanted, greatest_moves, grid_of};
use mesh_read::Surface;
use std::alloc::Global;

/// Surfaces on one grid.
#[derive(Drop)]
pub struct PlacedScene {
    pub grid: Grid,
    /// The triangles of the surface with the index `i` have the mesh number `i + 1`.
    pub scene: Scene,
    /// Those of each surface, in order.
    pub counts: Vec<Counts>,
    /// The greatest move of a corner of each surface, in order.
    pub moves: Vec<Length>,
}

// The meshes of surfaces, and the counts of each.
#[derive(Drop)]
struct Meshes {
    parts: Vec<Closed>,
    counts: Vec<Counts>,
}

impl Meshes {
    fn push(&mut self, placed: PlacedSurface) -> Result<(), OutOfMemory>
        ensures parts { OnOk result (self.new.parts.items ≡ self.old.parts.items ++ placed.mesh ∷ []) }
        ensures counts { OnOk result (self.new.counts.items ≡ self.old.counts.items ++ placed.counts ∷ []) }
    {
        self.parts.push(placed.mesh)?;
        self.counts.push(placed.counts)?;
        Ok(())
    }
}

// The fault of surfaces one of which has too many triangles.
fn too_many(surfaces: &[Surface], grid: &Grid) -> SceneFault
    requires few { length surfaces.now ≤ 64 }
    requires step { IsStep grid.now.step }
    requires lands { All (Lands grid.now) surfaces.now }
    requires many { most_triangles < length (images_of grid.now surfaces.now) }
    requires closed { All IsBalanced (take_while has_few (meshes_on grid.now 1 surfaces.now)) }
    ensures { IsFaultOn grid.now surfaces.now result }
{
    match u64::try_from(count_all(surfaces, grid)) {
        Ok(count) => SceneFault::TooManyTriangles(count),
        Err(_) => SceneFault::OutOfMemory,
    }
}

// The closed meshes of all surfaces.
fn meshes_of(alloc: Global, surfaces: &[Surface], grid: &Grid) -> Result<Meshes, SceneFault>
    requires few { length surfaces.now ≤ 64 }
    requires step { IsStep grid.now.step }
    requires lands { All (Lands grid.now) surfaces.now }
    ensures tris { IfOk result (λ m. map (λ part. part.tris) m.parts.items ≡ meshes_on grid.now 1 surfaces.now) }
    ensures counts { IfOk result (λ m. m.counts.items ≡ map (counts_on grid.now) surfaces.now) }
    ensures fault { IfErr result (IsFaultOn grid.now surfaces.now) }
{
    let mut meshes = Meshes {
        parts: Vec::with_capacity(alloc, surfaces.len())?,
        counts: Vec::with_capacity(alloc, surfaces.len())?,
    };
    for (index, surface) in surfaces.iter().enumerate() {
        match place_surface(alloc, surface, grid, index as u32) {
            Ok(placed) => meshes.push(placed)?,
            Err(SurfaceFault::TooManyTriangles) => return Err(too_many(surfaces, grid)),
            Err(SurfaceFault::Open(open)) => return Err(SceneFault::Open(open)),
            Err(SurfaceFault::OutOfMemory) => return Err(SceneFault::OutOfMemory),
        }
    }
    Ok(meshes)
}

/// The scene of the surfaces on the grid that is wanted for them, each a closed mesh, and what
/// becomes of the triangles of each, and how far its corners move.
///
/// Each coordinate of a corner is below 10^15 in size, and a given step is in range. There are at
/// most 64 surfaces. Of several faults the first of these is reported:
///
/// 1. No triangles, or a given step that is too small.
/// 2. A surface that isn't closed on the grid, of those before the first that has more than 262,144
///    triangles there. The first such surface is reported.
/// 3. More than 262,144 triangles of all surfaces together, with their number.
pub fn scene_of(
    alloc: Global,
    surfaces: &[Surface],
    wanted: Wanted,
) -> Result<PlacedScene, SceneFault>
    requires few { length surfaces.now ≤ 64 }
    requires within { All IsWithinLimit surfaces.now }
    requires choice { IsChoice wanted }

    ensures step { IfOk result (λ placed. IsStep placed.grid.step) }
    ensures grid { IfOk result (λ placed. IsGrid surfaces.now wanted placed.grid) }
    ensures lands { IfOk result (λ placed. All (Lands placed.grid) surfaces.now) }
    ensures tris { IfOk result (λ placed. placed.scene.tris ≡ images_of placed.grid surfaces.now) }
    ensures meshes { IfOk result (λ placed. placed.scene.meshes ≡ length surfaces.now) }
    ensures counts { IfOk result (λ placed. placed.counts.items ≡ map (counts_on placed.grid) surfaces.now) }
    ensures moves { IfOk result (λ placed. AreMoves placed.grid surfaces.now placed.moves.items) }
    ensures fault { IfErr result (IsSceneFault surfaces.now wanted) }
{
    let grid = grid_of(alloc, surfaces, wanted)?;
    let meshes = meshes_of(alloc, surfaces, &grid)?;
    let scene = join(alloc, Parts::of(meshes.parts))?;
    let moves = greatest_moves(alloc, surfaces, &grid)?;
    Ok(PlacedScene {
        grid,
        scene,
        counts: meshes.counts,
        moves,
    })
}
