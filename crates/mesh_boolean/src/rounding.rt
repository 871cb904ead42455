// The rounded triangles of a mesh.
ghost use Rattle.std.specs.Prelude.{◌≡◌, ◌≤◌, All, IfOk, IfErr, IfSome};
ghost use Rattle.mesh_certificate.specs.Certificate.Certificate.{IsProper};
ghost use Rattle.ember_model.specs.Valid.{IsValidPlane};
ghost use Rattle.mesh_grid.specs.Snap.Steps.{IsStep};
ghost use Rattle.mesh_write.specs.Vertices.Vertices.{IsMeshOf};
ghost use Rattle.mesh_written.specs.Decimals.{IsDecimalFault};
ghost use Rattle.mesh_written.specs.Digits.{written_places};
ghost use Rattle.mesh_written.specs.Floats.{IsFloatFault};
ghost use Rattle.mesh_boolean.specs.Effects.{decimals_of, origins_of_decimals, planes_of_decimals};
ghost use Rattle.mesh_boolean.specs.Outputs.{AreRounded, AreRoundedWith, AreShownIf};

use crate::effect::{RoundingEffect, float_effect};
use mesh_grid::Grid;
use mesh_solid::SolidMesh;
use mesh_write::FloatTriangle;
use mesh_written::{
    DecimalMesh, PlaceFault, decimal_mesh, float_points, float_triangles, triangles_over,
    written_places,
};
use std::alloc::Global;

// The triangles of a mesh on a grid, in the user's unit and rounded to floats.
pub(crate) fn rounded(
    alloc: Global,
    mesh: &SolidMesh,
    grid: &Grid,
) -> Result<Vec<FloatTriangle>, PlaceFault>
    requires step { IsStep grid.now.step }
    requires proper { All (IsProper mesh.now.planes.items mesh.now.corners.items) mesh.now.triangles.items }
    ensures rounded { IfOk result (λ written. AreRounded grid.now mesh.now written.items) }
    ensures fault { IfErr result (IsFloatFault grid.now.step grid.now.offset mesh.now.corners.items) }
{
    float_triangles(
        alloc,
        &mesh.planes,
        &mesh.corners,
        &mesh.triangles,
        &grid.step,
        &grid.offset,
    )
}

// The written triangles of a mesh, and what rounding did to it.
#[derive(Drop)]
pub(crate) struct RoundedMesh {
    pub(crate) triangles: Vec<FloatTriangle>,
    pub(crate) effect: RoundingEffect,
}

// The same triangles, and what rounding did to the mesh.
pub(crate) fn rounded_with_effect(
    alloc: Global,
    mesh: &SolidMesh,
    grid: &Grid,
) -> Result<RoundedMesh, PlaceFault>
    requires step { IsStep grid.now.step }
    requires proper { All (IsProper mesh.now.planes.items mesh.now.corners.items) mesh.now.triangles.items }
    requires valid { All IsValidPlane mesh.now.planes.items }
    ensures rounded { IfOk result (λ it. AreRoundedWith grid.now mesh.now it.triangles.items it.effect) }
    ensures fault { IfErr result (IsFloatFault grid.now.step grid.now.offset mesh.now.corners.items) }
{
    let points = float_points(alloc, &mesh.corners, &grid.step, &grid.offset)?;
    let effect = float_effect(alloc, mesh, &points, grid)?;
    let triangles = triangles_over(alloc, &mesh.planes, &points, &mesh.triangles)?;
    Ok(RoundedMesh { triangles, effect })
}

// The triangles alone, if they are asked for.
pub(crate) fn shown_if(
    alloc: Global,
    shows: bool,
    mesh: &SolidMesh,
    grid: &Grid,
) -> Result<Option<Vec<FloatTriangle>>, PlaceFault>
    requires step { IsStep grid.now.step }
    requires proper { All (IsProper mesh.now.planes.items mesh.now.corners.items) mesh.now.triangles.items }
    ensures shown { IfOk result (AreShownIf shows grid.now mesh.now) }
    ensures fault { IfErr result (IsFloatFault grid.now.step grid.now.offset mesh.now.corners.items) }
{
    if !shows {
        return Ok(None);
    }
    let shown = rounded(alloc, mesh, grid)?;
    Ok(Some(shown))
}

/// The triangles of a mesh on a grid, in the user's unit and rounded to decimals: see
/// [`decimal_mesh`]. There are at most 17 places. A corner of the mesh that is 10^21 or more from
/// zero is a fault.
pub fn decimals(
    alloc: Global,
    mesh: &SolidMesh,
    grid: &Grid,
    digits: Option<u32>,
) -> Result<DecimalMesh, PlaceFault>
    requires step { IsStep grid.now.step }
    requires proper { All (IsProper mesh.now.planes.items mesh.now.corners.items) mesh.now.triangles.items }
    requires digits { IfSome digits (λ n. n ≤ 17) }
    ensures mesh { IfOk result (λ written. IsMeshOf (decimals_of digits grid.now mesh.now) written.mesh) }
    ensures planes { IfOk result (λ written. written.planes.items ≡ planes_of_decimals digits grid.now mesh.now) }
    ensures origins { IfOk result (λ written. written.origins.items ≡ origins_of_decimals digits grid.now mesh.now) }
    ensures fault { IfErr result (IsDecimalFault grid.now.step grid.now.offset mesh.now.corners.items) }
{
    let places = written_places(digits, &grid.step);
    decimal_mesh(
        alloc,
        &mesh.corners,
        &mesh.triangles,
        &grid.step,
        &grid.offset,
        places,
    )
}
