// What rounding did to a mesh.
ghost use Rattle.std.specs.Prelude.{◌≡◌, ◌≤◌, All, IfOk, IfErr, IfSome};
ghost use Rattle.mesh_certificate.specs.Certificate.Certificate.{IsProper};
ghost use Rattle.ember_model.specs.Valid.{IsValidPlane};
ghost use Rattle.mesh_grid.specs.Snap.Steps.{IsStep};
ghost use Rattle.mesh_write.specs.Vertices.Vertices.{IsMeshOf};
ghost use Rattle.mesh_written.specs.Decimals.{IsDecimalFault};
ghost use Rattle.mesh_written.specs.Floats.{AreFloatPoints, IsFloatFault};
ghost use Rattle.mesh_boolean.specs.Effects.{IsDecimalEffect, IsFloatEffect, decimals_of, planes_of_decimals};

use mesh_effect::{
    Facings, Move, decimal_facings, float_facings, greatest_decimal_move, greatest_float_move,
    is_above_hundredth,
};
use mesh_grid::Grid;
use mesh_solid::SolidMesh;
use mesh_write::FloatPoint;
use mesh_written::{DecimalMesh, PlaceFault, written_places};
use std::alloc::Global;

/// What rounding did to the corners and triangles of a mesh.
#[derive(Clone, Copy, Debug, PartialEq, Eq)]
pub struct RoundingEffect {
    /// How far a corner of a triangle moved at most.
    pub greatest: Move,
    /// Whether this is more than a hundredth of the grid's step.
    pub is_coarse: bool,
    /// How many of the written triangles have no area, and how many are turned over.
    pub facings: Facings,
}

// What rounding to floats did to a mesh, whose corners became these points.
pub(crate) fn float_effect(
    alloc: Global,
    mesh: &SolidMesh,
    points: &[FloatPoint],
    grid: &Grid,
) -> Result<RoundingEffect, PlaceFault>
    requires step { IsStep grid.now.step }
    requires proper { All (IsProper mesh.now.planes.items mesh.now.corners.items) mesh.now.triangles.items }
    requires valid { All IsValidPlane mesh.now.planes.items }
    requires points { AreFloatPoints grid.now.step grid.now.offset mesh.now.corners.items points.now }
    ensures effect { IfOk result (IsFloatEffect grid.now mesh.now points.now) }
    ensures fault { IfErr result (IsFloatFault grid.now.step grid.now.offset mesh.now.corners.items) }
{
    let greatest = greatest_float_move(
        alloc,
        &mesh.corners,
        points,
        &mesh.triangles,
        &grid.step,
        &grid.offset,
    )?;
    let facings = float_facings(&mesh.planes, points, &mesh.triangles);
    Ok(RoundingEffect {
        greatest,
        is_coarse: is_above_hundredth(&greatest, &grid.step),
        facings,
    })
}

/// What rounding to decimals did to a mesh, of which these are the rounded triangles: see
/// [`decimals`](crate::decimals). A corner of the mesh that is 10^21 or more from zero is a fault.
pub fn decimal_effect(
    alloc: Global,
    mesh: &SolidMesh,
    written: &DecimalMesh,
    grid: &Grid,
    digits: Option<u32>,
) -> Result<RoundingEffect, PlaceFault>
    requires step { IsStep grid.now.step }
    requires proper { All (IsProper mesh.now.planes.items mesh.now.corners.items) mesh.now.triangles.items }
    requires valid { All IsValidPlane mesh.now.planes.items }
    requires digits { IfSome digits (λ n. n ≤ 17) }
    requires written { IsMeshOf (decimals_of digits grid.now mesh.now) written.now.mesh }
    requires planes { written.now.planes.items ≡ planes_of_decimals digits grid.now mesh.now }
    ensures effect { IfOk result (IsDecimalEffect digits grid.now mesh.now) }
    ensures fault { IfErr result (IsDecimalFault grid.now.step grid.now.offset mesh.now.corners.items) }
{
    let greatest = greatest_decimal_move(
        alloc,
        &mesh.corners,
        &mesh.triangles,
        &grid.step,
        &grid.offset,
        written_places(digits, &grid.step),
    )?;
    let facings = decimal_facings(
        &mesh.planes,
        &written.planes,
        written.mesh.vertices(),
        written.mesh.triangles(),
    );
    Ok(RoundingEffect {
        greatest,
        is_coarse: is_above_hundredth(&greatest, &grid.step),
        facings,
    })
}
