// The coordinates of all corners.
ghost use Rattle.std.specs.Prelude.{◌≡◌, [], ◌∷◌, length, flat_map, if◌then◌else◌, IfOk, OnOk};
ghost use Rattle.mesh_grid.specs.Grid.Corners.{corners_of, corners_in};
ghost use Rattle.mesh_grid.specs.Grid.Lists.{HasAppended, HasEntries, HasAdded, marked};

use crate::grid::marks::corner_marks;
use ember_model::OutOfMemory;
use mesh_number::Number;
use mesh_read::{Surface, Vertex};
use std::alloc::Global;

// The coordinates of corners along each axis.
#[derive(Drop)]
pub(crate) struct CornerLists<'a> {
    pub x: Vec<Number<'a>>,
    pub y: Vec<Number<'a>>,
    pub z: Vec<Number<'a>>,
}

fn push_vertex<'a>(lists: &mut CornerLists<'a>, vertex: &Vertex<'a>) -> Result<(), OutOfMemory>
    ensures { OnOk result (HasAppended lists.old (vertex.now ∷ []) lists.new) }
{
    lists.x.push(vertex.x)?;
    lists.y.push(vertex.y)?;
    lists.z.push(vertex.z)?;
    Ok(())
}

// The same if the vertex is a corner.
fn push_if<'a>(
    lists: &mut CornerLists<'a>,
    vertex: &Vertex<'a>,
    is_corner: bool,
) -> Result<(), OutOfMemory>
    ensures { OnOk result (HasAppended lists.old (if is_corner then vertex.now ∷ [] else []) lists.new) }
{
    if is_corner {
        push_vertex(lists, vertex)
    } else {
        Ok(())
    }
}

fn push_marked<'a>(
    lists: &mut CornerLists<'a>,
    vertices: &[Vertex<'a>],
    marks: &[bool],
) -> Result<(), OutOfMemory>
    requires { length marks.now ≡ length vertices.now }
    ensures { OnOk result (HasAppended lists.old (marked marks.now vertices.now) lists.new) }
{
    for (index, vertex) in vertices.iter().enumerate() {
        push_if(lists, vertex, marks[index])?;
    }
    Ok(())
}

fn push_surface<'a>(
    alloc: Global,
    lists: &mut CornerLists<'a>,
    surface: &Surface<'a>,
) -> Result<(), OutOfMemory>
    ensures { OnOk result (HasAdded lists.old
        (flat_map (corners_of surface.now.vertices.items) surface.now.facets.items) lists.new) }
{
    let marks = corner_marks(alloc, surface)?;
    push_marked(lists, &surface.vertices, &marks)
}

// How many vertices the surfaces have. The lists get this much room at once: a list that grows takes
// up to three times what it holds.
fn vertex_count(surfaces: &[Surface]) -> usize {
    let mut count: usize = 0;
    for surface in surfaces {
        count = count.saturating_add(surface.vertices.len());
    }
    count
}

// The coordinates of all corners of triangles, those of each vertex once.
pub(crate) fn corner_lists<'a>(
    alloc: Global,
    surfaces: &[Surface<'a>],
) -> Result<CornerLists<'a>, OutOfMemory>
    ensures { IfOk result (λ lists. HasEntries lists (corners_in surfaces.now)) }
{
    let room = vertex_count(surfaces);
    let mut lists = CornerLists {
        x: Vec::with_capacity(alloc, room)?,
        y: Vec::with_capacity(alloc, room)?,
        z: Vec::with_capacity(alloc, room)?,
    };
    for surface in surfaces {
        push_surface(alloc, &mut lists, surface)?;
    }
    Ok(lists)
}
