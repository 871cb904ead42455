// Whether segments are closed along lines.
ghost use Rattle.std.specs.Prelude.{◌↔◌, IfOk, IsTrue};
ghost use Rattle.std.specs.List.{AllZip};
ghost use Rattle.mesh_solid.specs.Refusal.ClosedLines.{AreLinesClosed, IsInPlaneZero};

use ember_model::OutOfMemory;
use mesh_certificate::{Segment, same_chains};
use std::alloc::Global;

// The segments as if all were in one plane.
fn in_one_plane(alloc: Global, segments: &[Segment]) -> Result<Vec<Segment>, OutOfMemory>
    ensures { IfOk result (λ moved. AllZip IsInPlaneZero segments.now moved.items) }
{
    let mut moved = Vec::with_capacity(alloc, segments.len())?;
    for s in segments {
        moved.push(Segment {
            plane: 0,
            line: s.line,
            start: s.start,
            end: s.end,
        })?;
    }
    Ok(moved)
}

/// Whether the segments are closed along lines: over each point of each line as many of them run on
/// as back. Its one error is out-of-memory.
pub fn are_lines_closed(alloc: Global, segments: &[Segment]) -> Result<bool, OutOfMemory>
    ensures { IfOk result (λ closed. IsTrue closed ↔ AreLinesClosed segments.now) }
{
    let moved = in_one_plane(alloc, segments)?;
    let none = Vec::new(alloc);
    let closed = same_chains(alloc, &moved, &none)?;
    Ok(closed)
}
