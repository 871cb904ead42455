// Which vertices are corners of triangles.
ghost use Rattle.std.specs.Prelude.{[], ◌∷◌, All, IfOk};
ghost use Rattle.mesh_grid.specs.Grid.Marks.{AreMarksOf, HasMarked, HasThreeCorners, indices_in};

use mesh_read::{Facet, Surface};
use std::alloc::{AllocError, Global};

fn mark(marks: &mut [bool], corner: u32)
    ensures { HasMarked marks.old (corner ∷ []) marks.new }
{
    let index = corner as usize;
    if index < marks.len() {
        marks[index] = true;
    }
}

fn mark_corners(marks: &mut [bool], facet: &Facet)
    ensures marks { HasMarked marks.old facet.now.corners marks.new }
    ensures three { HasThreeCorners facet.now }
{
    let [a, b, c] = facet.corners;
    mark(marks, a);
    mark(marks, b);
    mark(marks, c);
}

fn mark_all(marks: &mut [bool], facets: &[Facet])
    ensures marks { HasMarked marks.old (indices_in facets.now) marks.new }
    ensures three { All HasThreeCorners facets.now }
{
    for facet in facets {
        mark_corners(marks, facet);
    }
}

/// Which vertices of the surface are corners of its triangles: a mark for each vertex. A corner of a
/// triangle that is the index of no vertex doesn't count.
pub fn corner_marks(alloc: Global, surface: &Surface) -> Result<Vec<bool>, AllocError>
    ensures marks { IfOk result (λ marks. AreMarksOf surface.now marks.items) }
    ensures three { IfOk result (λ _. All HasThreeCorners surface.now.facets.items) }
{
    let mut marks = vec![in alloc; false; surface.vertices.len()]?;
    mark_all(&mut marks, &surface.facets);
    Ok(marks)
}
