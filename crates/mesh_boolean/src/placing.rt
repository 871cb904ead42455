// The scene of mesh files.
ghost use Rattle.std.specs.Prelude.{◌≤◌, length, All, IfOk, IfErr};
ghost use Rattle.mesh_grid.specs.Grid.Grids.{IsChoice};
ghost use Rattle.mesh_boolean.specs.Files.{IsSmall, IsPlaced};
ghost use Rattle.mesh_boolean.specs.Images.{AreForEach};
ghost use Rattle.mesh_boolean.specs.Faults.{IsPlacingFault};

use crate::fault::BooleanFault;
use crate::files::{InputFile, surfaces_in};
use crate::images::{given_surfaces, images_of};
use mesh_grid::Wanted;
use mesh_outside::{Stage, Stages};
use mesh_placing::Placing;
use mesh_scene::{PlacedScene, scene_of};
use std::alloc::Global;

/// The scene of mesh files on the grid that is wanted for them: each file is a closed mesh, and the
/// file with the index `i` has the mesh number `i + 1`. A file for which there is a placing is taken
/// as the image of its surface; there is either no placing at all, or an entry for each file. The
/// surfaces of the files aren't kept. There are at most 64 files, of at most 2^28 bytes each, and a
/// given step is in range. `stages` is told of each file and before the corners are put on the grid.
/// Of several faults the first of these is reported:
///
/// 1. The first file that isn't read.
/// 2. The first file that has no image by its placing, and then the first whose image is no mesh.
/// 3. The surfaces are no scene: see [`scene_of`](mesh_scene::scene_of).
pub fn placed_files<'a, P: Stages>(
    alloc: Global,
    files: &[InputFile<'a>],
    placings: &[Option<Placing>],
    wanted: Wanted,
    stages: &P,
) -> Result<PlacedScene, BooleanFault<'a>>
    requires few { length files.now ≤ 64 }
    requires sizes { All IsSmall files.now }
    requires placings { AreForEach placings.now files.now }
    requires choice { IsChoice wanted }
    ensures placed { IfOk result (IsPlaced files.now placings.now wanted) }
    ensures fault { IfErr result (IsPlacingFault files.now placings.now wanted) }
{
    let read = surfaces_in(alloc, files, stages)?;
    let images = images_of(alloc, placings, &read)?;
    let surfaces = given_surfaces(alloc, read, &images)?;
    stages.begin(Stage::Snapping);
    let placed = scene_of(alloc, &surfaces, wanted)?;
    Ok(placed)
}
