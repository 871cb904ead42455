// Whether edges lie on the lines that they name.
ghost use Rattle.std.specs.Prelude.{◌≡◌, ◌↔◌, All, IfSome, IsTrue, slice_get};
ghost use Rattle.mesh_certificate.specs.Certificate.OnLines.{IsCornerOnLine, IsOnItsLine};

use crate::certificate::corners::corner_at;
use crate::certificate::segment::Segment;
use crate::key::{LineKey, has_direction, is_on_line};
use mesh_point::SpacePoint;

// Whether the line has a direction and the corner lies on it.
fn is_corner_on_line(line: &LineKey, c: &SpacePoint) -> bool
    ensures { IsTrue result ↔ IsCornerOnLine line.now c.now }
{
    if !has_direction(line) {
        return false;
    }
    is_on_line(line, c)
}

// Whether the corner lies on the line, if both were found.
fn is_found_on_line(line: Option<LineKey>, corner: Option<SpacePoint>) -> bool
    ensures { IsTrue result ↔ IfSome line (λ k. IfSome corner (λ c. IsCornerOnLine k c)) }
{
    let Some(line) = line else {
        return true;
    };
    let Some(corner) = corner else {
        return true;
    };
    is_corner_on_line(&line, &corner)
}

fn line_at(lines: &[LineKey], number: u32) -> Option<LineKey>
    ensures { result ≡ slice_get lines.now number }
{
    lines.get(number as usize).copied()
}

// Whether the segment's line, if the table has it, leads through both of its corners.
fn is_on_its_line(lines: &[LineKey], corners: &[SpacePoint], s: &Segment) -> bool
    ensures { IsTrue result ↔ IsOnItsLine lines.now corners.now s.now }
{
    let line = line_at(lines, s.line);
    let start = corner_at(corners, s.start);
    let end = corner_at(corners, s.end);
    if !is_found_on_line(line, start) {
        return false;
    }
    is_found_on_line(line, end)
}

/// Whether each segment whose line is in the table lies on it: the line has a direction, and those
/// of the segment's corners that are in their table lie on it.
pub fn are_on_lines(lines: &[LineKey], corners: &[SpacePoint], segments: &[Segment]) -> bool
    ensures { IsTrue result ↔ All (IsOnItsLine lines.now corners.now) segments.now }
{
    for s in segments {
        if !is_on_its_line(lines, corners, s) {
            return false;
        }
    }
    true
}
