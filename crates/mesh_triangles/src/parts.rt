// The triangles of the planes' parts.
ghost use Rattle.std.specs.Prelude.{◌≤◌, length};
ghost use Rattle.mesh_triangles.specs.PlaneQueries.{IsPlaneExecutor};

use crate::cutting::{CutParts, PlanePart};
use crate::fault::TrianglesFault;
use crate::query::{PlaneAnswer, PlaneQuery, query_cuts};
use crate::split::Split;
use crate::tables::TablesView;
use ember_model::OutOfMemory;
use mesh_certificate::{Segment, Triangle, segment_key};
use std::alloc::Global;

// Where the triangles of a plane's part are among those of all parts. They are due until the part is
// cut inside its boundary as it is now.
#[derive(Clone, Copy)]
struct PlaneCut {
    plane: u32,
    is_due: bool,
    first: usize,
    behind: usize,
}

/// The parts of all planes, in order of planes: their boundaries, and the triangles of those parts
/// that are cut.
#[derive(Drop)]
pub struct PlaneParts {
    boundary: Vec<Segment>,
    cuts: Vec<PlaneCut>,
    triangles: Vec<Triangle>,
}

// The triangles of the planes of a boundary, all of them due.
fn due_cuts(alloc: Global, boundary: &[Segment]) -> Result<Vec<PlaneCut>, OutOfMemory> {
    let mut cuts = Vec::new(alloc);
    let mut last = None;
    for s in boundary {
        let plane = Some(s.plane);
        if plane != last {
            cuts.push(PlaneCut {
                plane: s.plane,
                is_due: true,
                first: 0,
                behind: 0,
            })?;
        }
        last = plane;
    }
    Ok(cuts)
}

// How many of the first segments belong to the plane.
fn count_in(segments: &[Segment], plane: u32) -> usize
    ensures { result ≤ length segments.now }
{
    for (count, s) in segments.iter().enumerate() {
        if s.plane != plane {
            return count;
        }
    }
    segments.len()
}

// Appends those of the segments in order of planes that come before another one, and returns the
// rest of them.
fn push_before<'a>(
    boundary: &mut Vec<Segment>,
    segments: &'a [Segment],
    other: &Segment,
) -> Result<&'a [Segment], OutOfMemory> {
    let mut rest = segments;
    while let Some((first, behind)) = rest.split_first() {
        if segment_key(first) >= segment_key(other) {
            break;
        }
        boundary.push(*first)?;
        rest = behind;
    }
    Ok(rest)
}

// The triangles of a part that is cut.
fn triangles_in<'a>(all: &'a [Triangle], cut: &PlaneCut) -> &'a [Triangle] {
    all.get(cut.first..cut.behind).unwrap_or(&[])
}

impl PlaneParts {
    /// The parts inside a boundary in order of planes. None is cut yet.
    pub fn inside(alloc: Global, boundary: &[Segment]) -> Result<PlaneParts, OutOfMemory> {
        Ok(PlaneParts {
            boundary: Vec::from_slice(alloc, boundary)?,
            cuts: due_cuts(alloc, boundary)?,
            triangles: Vec::new(alloc),
        })
    }

    /// Replaces what the boundary has on some lines by other segments on them, in order of planes.
    /// The parts of their planes are to be cut again.
    pub fn replace(
        &mut self,
        alloc: Global,
        lines: &[u32],
        segments: &[Segment],
    ) -> Result<(), OutOfMemory> {
        for s in segments {
            self.make_due(s.plane);
        }
        let mut boundary = Vec::new(alloc);
        let mut rest = segments;
        for s in &self.boundary {
            rest = push_before(&mut boundary, rest, s)?;
            if lines.binary_search(&s.line).is_err() {
                boundary.push(*s)?;
            }
        }
        boundary.extend_from_slice(rest)?;
        self.boundary = boundary;
        Ok(())
    }

    fn make_due(&mut self, plane: u32) {
        let place = self.cuts.partition_point(|cut| cut.plane < plane);
        if let Some(cut) = self.cuts.get_mut(place)
            && cut.plane == plane
        {
            cut.is_due = true;
        }
    }

    // The parts that are to be cut.
    fn due_parts(&self, alloc: Global) -> Result<Vec<PlanePart>, OutOfMemory> {
        let mut due = Vec::new(alloc);
        let mut rest = self.boundary.as_slice();
        for cut in &self.cuts {
            let (boundary, behind) = rest.split_at(count_in(rest, cut.plane));
            rest = behind;
            if cut.is_due {
                due.push(PlanePart {
                    plane: cut.plane,
                    boundary,
                })?;
            }
        }
        Ok(due)
    }

    // Keeps the triangles of the parts that were due and are cut now.
    fn keep(
        &mut self,
        triangles: &mut Vec<Triangle>,
        counts: &[Option<usize>],
    ) -> Result<(), OutOfMemory> {
        let mut first = self.triangles.len();
        self.triangles.append(triangles)?;
        let mut rest = counts;
        for cut in self.cuts.iter_mut() {
            if cut.is_due
                && let Some((count, behind)) = rest.split_first()
            {
                rest = behind;
                if let Some(count) = count {
                    cut.first = first;
                    first = first.saturating_add(*count);
                    cut.behind = first;
                    cut.is_due = false;
                }
            }
        }
        Ok(())
    }

    /// Cuts all parts that are due, and returns the splits that are needed before the rest of them
    /// can be cut. The lines of diagonals begin with the first free one, in each plane anew.
    pub fn cut<C: Fn(&PlaneQuery) -> Result<PlaneAnswer, TrianglesFault>>(
        &mut self,
        alloc: Global,
        tables: &TablesView,
        first_free_line: u32,
        executor: &C,
    ) -> Result<Vec<Split>, TrianglesFault>
        requires { IsPlaneExecutor C.pre C.post executor.now }
    {
        let due = self.due_parts(alloc)?;
        let CutParts {
            mut triangles,
            counts,
            needed,
        } = query_cuts(tables, &due, first_free_line, executor)?;
        drop(due);
        self.keep(&mut triangles, &counts)?;
        Ok(needed)
    }

    /// The triangles of all parts, plane by plane.
    pub fn triangles(&self, alloc: Global) -> Result<Vec<Triangle>, OutOfMemory> {
        let mut triangles = Vec::with_capacity(alloc, self.triangles.len())?;
        for cut in &self.cuts {
            triangles.extend_from_slice(triangles_in(&self.triangles, cut))?;
        }
        Ok(triangles)
    }
}
