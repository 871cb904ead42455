// Rounds of cutting, until no corner lies inside a segment.
ghost use Rattle.std.specs.Prelude.{IfOk};
ghost use Rattle.std.specs.List.Sorted.{IsPermutation};
ghost use Rattle.mesh_triangles.specs.PlaneQueries.{IsPlaneExecutor};

use crate::boundaries::{boundaries_of, in_order_of_planes};
use crate::fault::TrianglesFault;
use crate::parts::PlaneParts;
use crate::query::{PlaneAnswer, PlaneQuery};
use crate::split::{Split, add_splits, lines_of};
use crate::tables::TablesView;
use crate::through::{Through, crossings};
use crate::walk::Boundaries;
use mesh_certificate::{LineKey, Segment, Triangle};
use std::alloc::Global;

// The line after those of the table and of all segments: the lines of diagonals begin there.
fn first_free_line(lines: &[LineKey], segments: &[Segment]) -> Result<u32, TrianglesFault> {
    let Ok(known) = u32::try_from(lines.len()) else {
        return Err(TrianglesFault::NoLineLeft);
    };
    let mut free = known;
    for s in segments {
        let Some(next) = s.line.checked_add(1) else {
            return Err(TrianglesFault::NoLineLeft);
        };
        free = free.max(next);
    }
    Ok(free)
}

/// The segments in order of lines.
pub fn in_order_of_lines(
    alloc: Global,
    segments: &[Segment],
) -> Result<Vec<Segment>, TrianglesFault>
    ensures { IfOk result (λ sorted. IsPermutation segments.now sorted.items) }
{
    let mut sorted = Vec::from_slice(alloc, segments)?;
    sorted.sort_unstable_by_key(|s| s.line);
    Ok(sorted)
}

// Those of the segments in order of lines that are on the line.
fn on_line(by_line: &[Segment], line: u32) -> &[Segment] {
    let first = by_line.partition_point(|s| s.line < line);
    let behind = by_line.partition_point(|s| s.line <= line);
    by_line.get(first..behind).unwrap_or(&[])
}

// Those of the segments in order of lines that are on some lines.
fn segments_on(
    alloc: Global,
    by_line: &[Segment],
    lines: &[u32],
) -> Result<Vec<Segment>, TrianglesFault> {
    let mut segments = Vec::new(alloc);
    for line in lines {
        segments.extend_from_slice(on_line(by_line, *line))?;
    }
    Ok(segments)
}

// Finds the boundaries on the lines of the new splits anew.
fn split_lines(
    alloc: Global,
    tables: &TablesView,
    by_line: &[Segment],
    splits: &[Split],
    new: &[Split],
    parts: &mut PlaneParts,
) -> Result<(), TrianglesFault> {
    let lines = lines_of(alloc, new)?;
    let changed = segments_on(alloc, by_line, &lines)?;
    let Boundaries { segments, .. } = boundaries_of(alloc, tables, &changed, splits)?;
    parts.replace(alloc, &lines, &in_order_of_planes(segments))?;
    Ok(())
}

/// Triangles of the planes' parts, plane by plane. Nobody has checked them yet. A split takes
/// corners away from those that boundaries run through, and adds none: so it is enough to look for
/// crossings once.
pub fn found_triangles<C: Fn(&PlaneQuery) -> Result<PlaneAnswer, TrianglesFault>>(
    alloc: Global,
    tables: &TablesView,
    by_line: &[Segment],
    boundary: &[Segment],
    through: Vec<Through>,
    executor: &C,
) -> Result<Vec<Triangle>, TrianglesFault>
    requires { IsPlaneExecutor C.pre C.post executor.now }
{
    let free = first_free_line(tables.lines, by_line)?;
    let mut needed = crossings(alloc, through)?;
    let mut splits = Vec::new(alloc);
    let mut parts = PlaneParts::inside(alloc, boundary)?;
    for _ in 0..by_line.len().saturating_add(1) {
        if !needed.is_empty() {
            if !add_splits(&mut splits, &needed)? {
                return Err(TrianglesFault::NoEnd);
            }
            split_lines(alloc, tables, by_line, &splits, &needed, &mut parts)?;
        }
        needed = parts.cut(alloc, tables, free, executor)?;
        if needed.is_empty() {
            return Ok(parts.triangles(alloc)?);
        }
    }
    Err(TrianglesFault::NoEnd)
}
