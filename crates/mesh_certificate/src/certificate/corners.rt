// The corners of a table.
ghost use Rattle.std.specs.Prelude.{◌≡◌, slice_get};

use mesh_point::SpacePoint;

/// The point with this number, if the table has it.
pub fn corner_at(corners: &[SpacePoint], number: u32) -> Option<SpacePoint>
    ensures { result ≡ slice_get corners.now number }
{
    corners.get(number as usize).copied()
}
