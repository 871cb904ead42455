// The triangles of meshes that the triangles of their scene are.
ghost use Rattle.std.specs.Prelude.{◌≡◌, ◌≤◌, ◌++◌, All, IfOk, OnOk, length, map};
ghost use Rattle.mesh_grid.specs.Grid.Corners.{Lands};
ghost use Rattle.mesh_grid.specs.Snap.Steps.{IsStep};
ghost use Rattle.mesh_scene.specs.Scene.Images.{places_on};
ghost use Rattle.ember_arrays.specs.Sources.{input_at, inputs_from};

use ember_model::{Lines, OutOfMemory};
use mesh_grid::{Grid, snap_surface};
use mesh_read::Surface;
use std::alloc::{AllocError, Global};

/// A triangle of a mesh in arrays.
#[derive(Clone, Copy, Debug, PartialEq, Eq)]
pub struct InputTriangle {
    /// The number of its mesh, from 1.
    pub mesh: u32,
    /// Its index among the triangles of the mesh.
    pub triangle: u32,
}

// The places of the surface's triangles that don't vanish on the grid.
fn places_on(alloc: Global, surface: &Surface, grid: &Grid) -> Result<Lines, OutOfMemory>
    requires step { IsStep grid.now.step }
    requires lands { Lands grid.now surface.now }
    ensures { IfOk result (λ places. places ≡ places_on grid.now surface.now) }
{
    match snap_surface(alloc, surface, grid, 1) {
        Ok(snapped) => Ok(snapped.soup.lines),

        // A surface of a scene doesn't have too many triangles.
        Err(_) => Err(AllocError),
    }
}

// Adds the triangles with these places in the mesh with this number.
fn push_inputs(inputs: &mut Vec<InputTriangle>, mesh: u32, places: &[u32]) -> Result<(), AllocError>
    ensures { OnOk result (inputs.new.items ≡ inputs.old.items ++ map (input_at mesh) places.now) }
{
    for place in places {
        inputs.push(InputTriangle {
            mesh,
            triangle: place.saturating_sub(1),
        })?;
    }
    Ok(())
}

// The triangles of the surfaces that don't vanish on the grid, one surface after the other. The places of a
// surface's triangles are their numbers from 1.
pub(crate) fn inputs_of(
    alloc: Global,
    surfaces: &[Surface],
    grid: &Grid,
) -> Result<Vec<InputTriangle>, OutOfMemory>
    requires few { length surfaces.now ≤ 64 }
    requires step { IsStep grid.now.step }
    requires lands { All (Lands grid.now) surfaces.now }
    ensures { IfOk result (λ inputs. inputs.items ≡ inputs_from grid.now 1 surfaces.now) }
{
    let mut inputs = Vec::new(alloc);
    for (index, surface) in surfaces.iter().enumerate() {
        let places = places_on(alloc, surface, grid)?;
        push_inputs(&mut inputs, index as u32 + 1, places.items())?;
    }
    Ok(inputs)
}
