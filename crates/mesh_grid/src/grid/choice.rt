// The grid of a scene.
ghost use Rattle.std.specs.Prelude.{◌≡◌, All, IfOk, IfErr, IfSome, IfNone};
ghost use Rattle.mesh_grid.specs.Snap.Steps.{IsStep, nice_of, fine_of};
ghost use Rattle.mesh_grid.specs.Snap.Spans.{AreCoordinates, FitsAll, IsLeast};
ghost use Rattle.mesh_grid.specs.Snap.Offsets.{IsOffset, LandsOnGrid};
ghost use Rattle.mesh_grid.specs.Grid.Corners.{Lands};
ghost use Rattle.mesh_grid.specs.Grid.Grids.{IsWithinLimit, IsChoice, IsWantedStep, IsExtent, IsGrid, IsGridFault, IsStepFault};

use crate::grid::coordinates::{CornerLists, corner_lists};
use crate::grid::extent::SceneExtent;
use crate::grid::fault::GridFault;
use crate::grid::grid::Grid;
use crate::grid::lengths::length_of;
use crate::snap::{Coordinates, GridStep, finest_step, nice_step, offset_at};
use mesh_read::Surface;
use std::alloc::Global;

/// Which step a grid is to have.
#[derive(Clone, Copy, Debug, PartialEq, Eq)]
pub enum Wanted {
    /// The least of 1, 2 and 5 times a power of ten at which all corners fit on the grid.
    Nice,
    /// The least number of at most four digits times a power of ten at which they do.
    Finest,
    /// This one.
    Given(GridStep),
}

fn least_nice_step(coordinates: &Coordinates) -> GridStep
    requires { AreCoordinates coordinates.now }
    ensures step { IsStep result }
    ensures least { IsLeast nice_of coordinates.now result }
{
    match nice_step(coordinates) {
        Some(step) => step,
        None => unreachable!(),
    }
}

fn least_fine_step(coordinates: &Coordinates) -> GridStep
    requires { AreCoordinates coordinates.now }
    ensures step { IsStep result }
    ensures least { IsLeast fine_of coordinates.now result }
{
    match finest_step(coordinates) {
        Some(step) => step,
        None => unreachable!(),
    }
}

// How long the coordinates are, and the finest step at which they fit.
fn extent_of(coordinates: &Coordinates) -> SceneExtent
    requires { AreCoordinates coordinates.now }
    ensures { IsExtent coordinates.now result }
{
    SceneExtent {
        trillionths: length_of(coordinates),
        finest: least_fine_step(coordinates),
    }
}

fn wanted_step(coordinates: &Coordinates, wanted: Wanted) -> GridStep
    requires coordinates { AreCoordinates coordinates.now }
    requires choice { IsChoice wanted }
    ensures step { IsStep result }
    ensures value { IsWantedStep wanted coordinates.now result }
{
    match wanted {
        Wanted::Nice => least_nice_step(coordinates),
        Wanted::Finest => least_fine_step(coordinates),
        Wanted::Given(step) => step,
    }
}

// The grid on which these coordinates fit.
fn grid_for(coordinates: &Coordinates, wanted: Wanted) -> Result<Grid, GridFault>
    requires coordinates { AreCoordinates coordinates.now }
    requires choice { IsChoice wanted }
    ensures step { IfOk result (λ grid. IsStep grid.step) }
    ensures wanted { IfOk result (λ grid. IsWantedStep wanted coordinates.now grid.step) }
    ensures offset { IfOk result (λ grid. IsOffset grid.step coordinates.now grid.offset) }
    ensures lands { IfOk result (λ grid. LandsOnGrid grid.step coordinates.now grid.offset) }
    ensures fault { IfErr result (IsStepFault coordinates.now wanted) }
{
    let step = wanted_step(coordinates, wanted);
    match offset_at(coordinates, &step) {
        Some(offset) => Ok(Grid { step, offset }),
        None => Err(GridFault::StepTooSmall(extent_of(coordinates))),
    }
}

/// The grid of a scene: the step that is wanted, and the offset with which all corners of triangles
/// are on it. Vertices of no triangle don't count.
///
/// Each coordinate of a corner is below 10^15 in size, and a given step is in range. It is a fault
/// if there are no triangles, or if they don't fit on a grid with the given step: then the fault
/// says how long they are, and has the finest step at which they fit.
pub fn grid_of(alloc: Global, surfaces: &[Surface], wanted: Wanted) -> Result<Grid, GridFault>
    requires within { All IsWithinLimit surfaces.now }
    requires choice { IsChoice wanted }
    ensures step { IfOk result (λ grid. IsStep grid.step) }
    ensures grid { IfOk result (IsGrid surfaces.now wanted) }
    ensures lands { IfOk result (λ grid. All (Lands grid) surfaces.now) }
    ensures fault { IfErr result (IsGridFault surfaces.now wanted) }
{
    let Ok(lists) = corner_lists(alloc, surfaces) else {
        return Err(GridFault::OutOfMemory);
    };
    if lists.x.is_empty() {
        return Err(GridFault::NoTriangles);
    }
    let coordinates = Coordinates {
        x: &lists.x,
        y: &lists.y,
        z: &lists.z,
    };
    grid_for(&coordinates, wanted)
}
