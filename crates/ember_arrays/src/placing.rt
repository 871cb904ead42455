// The scene of meshes in arrays.
ghost use Rattle.std.specs.Prelude.{◌≡◌, ◌≤◌, All, IfOk, IfErr, length};
ghost use Rattle.mesh_arrays.specs.Arrays.{IsShort};
ghost use Rattle.mesh_grid.specs.Grid.Corners.{Lands};
ghost use Rattle.mesh_grid.specs.Grid.Grids.{IsChoice};
ghost use Rattle.mesh_grid.specs.Snap.Steps.{IsStep};
ghost use Rattle.mesh_solid.specs.Mesh.Asked.{IsThereIf};
ghost use Rattle.ember_arrays.specs.Faults.{IsPlacingFault};
ghost use Rattle.ember_arrays.specs.Meshes.{IsPlacedWith};
ghost use Rattle.ember_arrays.specs.Sources.{inputs_from};

use crate::inputs::{InputTriangle, inputs_of};
use crate::surfaces::surfaces_of;
use ember_model::OutOfMemory;
use mesh_arrays::ArrayMesh;
use mesh_boolean::BooleanFault;
use mesh_grid::{Grid, Wanted};
use mesh_read::Surface;
use mesh_scene::{PlacedScene, scene_of};
use std::alloc::Global;

/// The scene of meshes in arrays.
#[derive(Drop)]
pub struct PlacedArrays {
    pub placed: PlacedScene,
    /// For each triangle of the scene the triangle of a mesh that it is, if it was asked for.
    pub inputs: Option<Vec<InputTriangle>>,
}

// The triangles of the surfaces' meshes, if they are wanted.
fn inputs_if(
    alloc: Global,
    wants_inputs: bool,
    surfaces: &[Surface],
    grid: &Grid,
) -> Result<Option<Vec<InputTriangle>>, OutOfMemory>
    requires few { length surfaces.now ≤ 64 }
    requires step { IsStep grid.now.step }
    requires lands { All (Lands grid.now) surfaces.now }
    ensures { IfOk result (IsThereIf wants_inputs (λ inputs. inputs.items ≡ inputs_from grid.now 1 surfaces.now)) }
{
    if !wants_inputs {
        return Ok(None);
    }
    let inputs = inputs_of(alloc, surfaces, grid)?;
    Ok(Some(inputs))
}

/// The scene of meshes on the grid that is wanted for them: each is a closed mesh, and the one with the index
/// `i` has the mesh number `i + 1`. There are at most 64 meshes, of at most 2^28 bytes each, and a given step
/// is in range. Which triangle of a mesh each triangle of the scene is can be asked for, too. Of several faults
/// the first of these is reported:
///
/// 1. The first mesh that has no surface.
/// 2. The surfaces are no scene: see [`scene_of`](mesh_scene::scene_of).
pub fn placed_arrays(
    alloc: Global,
    meshes: &[ArrayMesh],
    wanted: Wanted,
    wants_inputs: bool,
) -> Result<PlacedArrays, BooleanFault<'static>>
    requires few { length meshes.now ≤ 64 }
    requires short { All IsShort meshes.now }
    requires choice { IsChoice wanted }
    ensures placed { IfOk result (IsPlacedWith meshes.now wanted wants_inputs) }
    ensures fault { IfErr result (IsPlacingFault meshes.now wanted) }
{
    let surfaces = surfaces_of(alloc, meshes)?;
    let placed = scene_of(alloc, &surfaces, wanted)?;
    let inputs = inputs_if(alloc, wants_inputs, &surfaces, &placed.grid)?;
    Ok(PlacedArrays { placed, inputs })
}
