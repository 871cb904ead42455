// What is said of a mesh.
ghost use Rattle.std.specs.Prelude.{◌≡◌, ◌++◌, ℕ, List, IfOk, OnOk};
ghost use Rattle.mesh_info.specs.Info.Infos.{IsInfo};
ghost use Rattle.mesh_info.specs.Info.Lines.{IsInfoLine};

use crate::info::bounds::{BoundingBox, box_of};
use crate::info::corners::mesh_of;
use crate::info::edges::count_edges;
use crate::info::line::put_line;
use crate::info::volume::volume_of;
use mesh_read::Surface;
use std::alloc::{AllocError, Global};

/// What is said of a mesh. Corners at the same trillionths of the unit are one position.
#[derive(Clone, Copy, Debug, PartialEq)]
pub struct Info {
    /// The number of triangles.
    pub triangles: u64,
    /// The number of positions at which they have corners.
    pub positions: u64,
    /// By how much edges are used in one direction more often than in the other, all together. The
    /// mesh is closed if this is 0.
    pub loose: u128,
    /// The number of edges of more than two triangles.
    pub shared: u64,
    /// The volume inside the triangles, if the mesh is closed: that inside an outer shell counts
    /// as positive, and where shells overlap it counts once for each.
    pub volume: f64,
    /// The bounding box of the corners of triangles, in trillionths of the unit.
    pub bounds: BoundingBox,
}

/// What is said of a surface. Its one error is out-of-memory.
///
/// The volume is a sum of floats, and so not exact: those of positions from the lower corner of the
/// bounding box, so that it doesn't matter where the mesh lies.
pub fn info_of(alloc: Global, surface: &Surface) -> Result<Info, AllocError>
    ensures { IfOk result (IsInfo surface.now) }
{
    let mesh = mesh_of(alloc, surface)?;
    let positions = mesh.vertices();
    let triangles = mesh.triangles();
    let counts = count_edges(alloc, triangles)?;
    let bounds = box_of(positions);
    Ok(Info {
        triangles: triangles.len() as u64,
        positions: positions.len() as u64,
        loose: counts.loose,
        shared: counts.shared,
        volume: volume_of(&bounds.lower, positions, triangles),
        bounds,
    })
}

/// Appends the line of JSON that says what is said of a surface with this name. Its one error is
/// out-of-memory.
///
/// The coordinates of the bounding box are decimals of at most 12 places in the unit of the mesh.
/// The bytes of the name are written as they are, but for quotes, backslashes and control
/// characters, which are escaped.
pub fn put_info(
    alloc: Global,
    name: &[u8],
    surface: &Surface,
    text: &mut Vec<u8>,
) -> Result<(), AllocError>
    ensures { OnOk result ((line : List ℕ) × IsInfoLine name.now surface.now line ×
        (text.new.items ≡ text.old.items ++ line)) }
{
    let info = info_of(alloc, surface)?;
    put_line(alloc, name, &info, text)
}
