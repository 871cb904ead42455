// The page of surfaces.
ghost use Rattle.std.specs.Prelude.{flat_map, List, ◌++◌, IfOk, OnOk};
ghost use Rattle.mesh_write.specs.declared.vertices.point.DecimalTriangle.{DecimalTriangle};
ghost use Rattle.mesh_info.specs.Info.Corners.{triangles_of};
ghost use Rattle.mesh_info.specs.View.Views.{AreShown, IsView};

use crate::info::triangles_of;
use crate::page::page_bytes;
use crate::view::files::files_of;
use crate::view::floats::shown;
use ember_words::Text;
use mesh_read::Surface;
use mesh_write::{DecimalTriangle, FloatTriangle};
use std::alloc::{AllocError, Global};

// Appends these triangles, as the page has them, to those of others.
fn put_shown(
    triangles: &[DecimalTriangle],
    written: &mut Vec<FloatTriangle>,
) -> Result<(), AllocError>
    ensures { OnOk result ((others : List DecimalTriangle) → AreShown others written.old.items →
        AreShown (others ++ triangles.now) written.new.items) }
{
    for t in triangles {
        written.push(shown(t))?;
    }
    Ok(())
}

// The triangles of all surfaces, as the page has them.
fn written_triangles(alloc: Global, surfaces: &[Surface]) -> Result<Vec<FloatTriangle>, AllocError>
    ensures { IfOk result (λ written. AreShown (flat_map triangles_of surfaces.now) written.items) }
{
    let mut written = Vec::new(alloc);
    for surface in surfaces {
        let triangles = triangles_of(alloc, surface)?;
        put_shown(&triangles, &mut written)?;
    }
    Ok(written)
}

/// The page that shows all triangles of these surfaces under this title, one surface after another,
/// each as the file with the name of the same index (see [`page_bytes`]). A surface doesn't have to be
/// closed. Its one error is out-of-memory.
///
/// Each coordinate of a corner is rounded to trillionths of the unit, and then to the nearest float
/// of 32 bits.
pub fn view_of(
    alloc: Global,
    title: &[u8],
    names: &[Text],
    surfaces: &[Surface],
) -> Result<Vec<u8>, AllocError>
    ensures { IfOk result (λ page. IsView title.now names.now surfaces.now page.items) }
{
    let written = written_triangles(alloc, surfaces)?;
    let files = files_of(alloc, surfaces)?;
    page_bytes(alloc, title, names, &written, &files)
}
