// The parts of planes, one after another, as triangles.
use crate::fault::TrianglesFault;
use crate::split::Split;
use crate::tables::TablesView;
use ember_model::OutOfMemory;
use mesh_certificate::{Segment, Triangle};
use mesh_triangulate::{Touch, Triangulation, triangles_of, with_lines};
use std::alloc::Global;

/// A part of a plane: the plane's number, and the part's boundary.
#[derive(Clone, Copy)]
pub struct PlanePart<'a> {
    pub plane: u32,
    pub boundary: &'a [Segment],
}

/// What became of parts that were to be cut, in order.
#[derive(Drop)]
pub struct CutParts {
    /// The triangles of all parts that were cut, part by part.
    pub triangles: Vec<Triangle>,
    /// For each part the number of its triangles. None if corners lie inside segments of its
    /// boundary.
    pub counts: Vec<Option<usize>>,
    /// The splits that these parts need first.
    pub needed: Vec<Split>,
}

impl CutParts {
    // The result for no parts.
    fn none(alloc: Global) -> CutParts {
        CutParts {
            triangles: Vec::new(alloc),
            counts: Vec::new(alloc),
            needed: Vec::new(alloc),
        }
    }

    // Adds a part that needs splits at touches.
    fn push_touches(&mut self, touches: &[Touch]) -> Result<(), OutOfMemory> {
        for touch in touches {
            self.needed.push(Split {
                line: touch.line,
                corner: touch.corner,
            })?;
        }
        self.counts.push(None)?;
        Ok(())
    }

    // Adds a part that was cut into triangles with these corners.
    fn push_triangles(
        &mut self,
        alloc: Global,
        part: &PlanePart,
        corners: &[[u32; 3]],
        first_free_line: u32,
    ) -> Result<(), TrianglesFault> {
        let named = with_lines(alloc, part.plane, part.boundary, corners, first_free_line)?;
        let Some(named) = named else {
            return Err(TrianglesFault::NoLineLeft);
        };
        self.triangles.extend_from_slice(&named)?;
        self.counts.push(Some(named.len()))?;
        Ok(())
    }

    // Cuts one more part.
    fn cut(
        &mut self,
        alloc: Global,
        tables: &TablesView,
        part: &PlanePart,
        first_free_line: u32,
    ) -> Result<(), TrianglesFault> {
        let Some(plane) = tables.planes.get(part.plane as usize) else {
            return Err(TrianglesFault::UnknownPlane(part.plane));
        };
        match triangles_of(alloc, plane, tables.corners, part.boundary)? {
            Triangulation::Triangles(corners) => {
                self.push_triangles(alloc, part, &corners, first_free_line)
            }
            Triangulation::Touches(touches) => {
                self.push_touches(&touches)?;
                Ok(())
            }
            Triangulation::NotFound => Err(TrianglesFault::NoTriangles(part.plane)),
        }
    }

    /// Adds what became of other parts.
    pub fn append(&mut self, mut others: CutParts) -> Result<(), OutOfMemory> {
        self.triangles.append(&mut others.triangles)?;
        self.counts.append(&mut others.counts)?;
        self.needed.append(&mut others.needed)?;
        Ok(())
    }
}

/// Cuts the parts. The lines of diagonals begin with the first free one, in each part anew.
pub fn cut_parts(
    alloc: Global,
    tables: &TablesView,
    parts: &[PlanePart],
    first_free_line: u32,
) -> Result<CutParts, TrianglesFault> {
    let mut found = CutParts::none(alloc);
    for part in parts {
        found.cut(alloc, tables, part, first_free_line)?;
    }
    Ok(found)
}
