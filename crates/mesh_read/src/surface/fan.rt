// The triangles of a face with many corners.
ghost use Rattle.std.specs.Prelude.{◌≡◌, ◌++◌, OnOk};
ghost use Rattle.mesh_read.specs.Surface.Surfaces.{fan};

use crate::surface::surface::Facet;
use std::alloc::AllocError;

/// Appends the triangles of a face: those of its first corner with each two neighbours among the
/// others. A face of fewer than three corners has none.
pub fn push_fan(facets: &mut Vec<Facet>, corners: &[u32], place: u32) -> Result<(), AllocError>
    ensures { OnOk result (facets.new.items ≡ facets.old.items ++ fan place corners.now) }
{
    let Some((first, others)) = corners.split_first() else {
        return Ok(());
    };
    let Some((second, others)) = others.split_first() else {
        return Ok(());
    };
    let mut previous = *second;
    let mut rest = others;
    while let Some((corner, after)) = rest.split_first() {
        facets.push(Facet {
            corners: [*first, previous, *corner],
            place,
        })?;
        previous = *corner;
        rest = after;
    }
    Ok(())
}
