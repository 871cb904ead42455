// Parts that are one triangle.
ghost use Rattle.std.specs.Prelude.{IfSome};
ghost use Rattle.mesh_triangulate.specs.Lines.{IsLineOf, IsWhole};

use crate::lines::segment;
use mesh_certificate::{Segment, Triangle};

// The line of a segment of the boundary from the first corner to the second.
fn line_between(boundary: &[Segment], start: u32, end: u32) -> Option<u32>
    ensures { IfSome result (λ line. IsLineOf boundary.now start end line) }
{
    for s in boundary {
        if s.start == start && s.end == end {
            return Some(s.line);
        }
    }
    None
}

/// The triangle with these corners and the lines of its edges, if each of its edges is a segment of
/// the boundary.
pub fn whole_triangle(plane: u32, boundary: &[Segment], corners: &[u32; 3]) -> Option<Triangle>
    ensures { IfSome result (λ t. IsWhole plane boundary.now corners.now t) }
{
    let [a, b, c] = *corners;
    let ab = line_between(boundary, a, b)?;
    let bc = line_between(boundary, b, c)?;
    let ca = line_between(boundary, c, a)?;
    Some(Triangle {
        first: segment(plane, ab, a, b),
        second: segment(plane, bc, b, c),
        third: segment(plane, ca, c, a),
    })
}
