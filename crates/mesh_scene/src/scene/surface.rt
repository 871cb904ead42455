// One surface on the grid.
ghost use Rattle.std.specs.Prelude.{◌≡◌, ◌≤◌, ◌+◌, ◌<◌, ◌^◌, length, IfOk, IfErr};
ghost use Rattle.ember_model.specs.Limits.{most_triangles};
ghost use Rattle.mesh_grid.specs.Snap.Steps.{IsStep};
ghost use Rattle.ember_balance.specs.Loose.{edge_of, IsLeastLoose};
ghost use Rattle.mesh_grid.specs.Grid.Corners.{Lands};
ghost use Rattle.mesh_grid.specs.Grid.Places.{IsPlaceOf};
ghost use Rattle.mesh_scene.specs.Scene.Images.{images_on, places_on, counts_on};
ghost use Rattle.mesh_scene.specs.Scene.Faults.{IsOpenMesh, IsSurfaceFault};

use crate::scene::counts::Counts;
use crate::scene::edges::count_loose;
use crate::scene::fault::Open;
use ember_balance::{Loose, balance};
use ember_mesh::Closed;
use ember_model::{OutOfMemory, Soup};
use mesh_grid::{Grid, SnapFault, place_of_edge, snap_surface};
use mesh_read::Surface;
use std::alloc::Global;
use thiserror::Error;

// The mesh of a surface, and its counts.
#[derive(Drop)]
pub(crate) struct PlacedSurface {
    pub mesh: Closed,
    pub counts: Counts,
}

// Why a surface is no mesh.
#[derive(Clone, Copy, Debug, Error)]
pub(crate) enum SurfaceFault {
    #[error("too many triangles")]
    TooManyTriangles,
    #[error("open")]
    Open(Open),
    #[error("out of memory")]
    OutOfMemory,
}

// The place of the first triangle with the loose edge.
fn place_of_loose(soup: &Soup, loose: &Loose) -> u32
    requires { IsLeastLoose soup.now.tris loose.now }
    ensures { IsPlaceOf (edge_of loose.now) soup.now.tris soup.now.lines result }
{
    match place_of_edge(
        soup.tris.items(),
        soup.lines.items(),
        &loose.from,
        &loose.to,
    ) {
        Some(place) => place,
        None => unreachable!(),
    }
}

// What is wrong with triangles that have this least loose edge.
fn open_with(
    alloc: Global,
    soup: &Soup,
    loose: Loose,
    grid: &Grid,
    file: u32,
) -> Result<Open, OutOfMemory>
    requires few { length soup.now.tris ≤ most_triangles }
    requires least { IsLeastLoose soup.now.tris loose }
    ensures open { IfOk result (IsOpenMesh soup.now.tris soup.now.lines) }
    ensures grid { IfOk result (λ o. o.grid ≡ grid.now) }
    ensures file { IfOk result (λ o. o.file ≡ file) }
{
    let edges = count_loose(alloc, soup.tris.items())?;
    Ok(Open {
        file,
        grid: *grid,
        edges,
        loose,
        place: place_of_loose(soup, &loose),
    })
}

// The triangles as a closed mesh.
fn closed(alloc: Global, soup: Soup, grid: &Grid, file: u32) -> Result<Closed, SurfaceFault>
    requires { length soup.tris ≤ most_triangles }
    ensures tris { IfOk result (λ mesh. mesh.tris ≡ soup.tris) }
    ensures fault { IfErr result (IsSurfaceFault grid.now file soup.tris soup.lines) }
{
    match balance(alloc, soup.tris.items()) {
        Ok(None) => Ok(Closed {
            tris: soup.tris,
            lines: soup.lines,
        }),
        Ok(Some(loose)) => match open_with(alloc, &soup, loose, grid, file) {
            Ok(open) => Err(SurfaceFault::Open(open)),
            Err(_) => Err(SurfaceFault::OutOfMemory),
        },
        Err(_) => Err(SurfaceFault::OutOfMemory),
    }
}

/// The closed mesh of the surface with this index, and its counts.
pub fn place_surface(
    alloc: Global,
    surface: &Surface,
    grid: &Grid,
    file: u32,
) -> Result<PlacedSurface, SurfaceFault>
    requires file { file < 64 }
    requires step { IsStep grid.now.step }
    requires lands { Lands grid.now surface.now }
    ensures tris { IfOk result (λ placed. placed.mesh.tris ≡ images_on grid.now (file + 1) surface.now) }
    ensures counts { IfOk result (λ placed. placed.counts ≡ counts_on grid.now surface.now) }
    ensures fault { IfErr result (IsSurfaceFault
        grid.now file (images_on grid.now (file + 1) surface.now) (places_on grid.now surface.now)) }
{
    let snapped = match snap_surface(alloc, surface, grid, file + 1) {
        Ok(snapped) => snapped,
        Err(SnapFault::TooManyTriangles(_)) => return Err(SurfaceFault::TooManyTriangles),
        Err(SnapFault::OutOfMemory) => return Err(SurfaceFault::OutOfMemory),
    };
    let counts = Counts {
        triangles: surface.facets.len() as u64,
        vanished: snapped.vanished,
        flat: snapped.flat,
    };
    let mesh = closed(alloc, snapped.soup, grid, file)?;
    Ok(PlacedSurface { mesh, counts })
}
