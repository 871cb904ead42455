// A row, and its coordinates.
ghost use Rattle.std.specs.Prelude.{◌≡◌, Ok, Err, OnOk, IfErr};
ghost use Rattle.mesh_ply.specs.CursorViews.{scalar_of};
ghost use Rattle.mesh_ply.specs.Rows.{empty_row, with_scalar};
ghost use Rattle.mesh_ply.specs.RowViews.{row_of};

use crate::declarations::Axis;
use crate::fault::PlyFault;
use crate::place::RowPlace;
use crate::scalars::{Scalar, scalar_value};
use mesh_number::Number;

// The coordinates and the corners of a row. The list of corners is kept from row to row.
#[derive(Drop)]
pub(crate) struct Row<'a> {
    pub x: Option<Number<'a>>,
    pub y: Option<Number<'a>>,
    pub z: Option<Number<'a>>,
    pub has_corners: bool,
    pub corners: Vec<u32>,
}

pub(crate) fn clear_row<'a>(row: &mut Row<'a>)
    ensures { row_of row.new ≡ empty_row }
{
    row.x = None;
    row.y = None;
    row.z = None;
    row.has_corners = false;
}

// Puts a scalar into the row, if it is a coordinate.
#[tactic(none)]
pub(crate) fn put_scalar<'a>(
    row: &mut Row<'a>,
    place: RowPlace,
    axis: Option<Axis>,
    scalar: Scalar<'a>,
) -> Result<(), PlyFault>
    ensures ok { OnOk result
        (with_scalar place axis (row_of row.old) (scalar_of scalar.entry) ≡ Ok (row_of row.new)) }
    ensures fault { IfErr result (λ e. with_scalar place axis (row_of row.old) (scalar_of scalar.entry) ≡ Err e) }
{
    let Some(axis) = axis else {
        return Ok(());
    };
    let Some(value) = scalar_value(scalar) else {
        return Err(PlyFault::NotFinite(place.number));
    };
    match axis {
        Axis::X => row.x = Some(value),
        Axis::Y => row.y = Some(value),
        Axis::Z => row.z = Some(value),
    }
    Ok(())
}
