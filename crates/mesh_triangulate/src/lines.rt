// Triangles with the lines of their edges.
ghost use Rattle.std.specs.Prelude.{◌≡◌, IfOk, OnOk, IfSome, nat_eq};
ghost use Rattle.std.specs.HashMap.{get};
ghost use Rattle.mesh_triangulate.specs.Lines.{IsLineIn, IsNamed, AreLinesOf, AreRight, AreExtended, AreWithLines};

use crate::diagonals::{Diagonals, edge_key, pair_key};
use crate::whole::whole_triangle;
use ember_model::OutOfMemory;
use mesh_certificate::{Segment, Triangle};
use std::alloc::Global;
use std::collections::HashMap;

// The lines of the boundary's segments by their keys, and those of the diagonals so far.
#[derive(Drop)]
struct Lines {
    boundary: HashMap<u64, u32>,
    diagonals: Diagonals,
}

/// The segment from one corner to another on a line of a plane, all by their numbers.
pub fn segment(plane: u32, line: u32, start: u32, end: u32) -> Segment
    ensures plane { result.plane ≡ plane }
    ensures line { result.line ≡ line }
    ensures start { result.start ≡ start }
    ensures end { result.end ≡ end }
{
    Segment {
        plane,
        line,
        start,
        end,
    }
}

fn boundary_lines(alloc: Global, boundary: &[Segment]) -> Result<HashMap<u64, u32>, OutOfMemory>
    ensures { IfOk result (λ lines. AreLinesOf boundary.now (λ key. get nat_eq lines key)) }
{
    let mut lines = HashMap::new(alloc);
    for s in boundary {
        lines.insert(edge_key(s.start, s.end), s.line)?;
    }
    Ok(lines)
}

impl Lines {
    fn of(alloc: Global, boundary: &[Segment], first_free_line: u32) -> Result<Lines, OutOfMemory>
        ensures { IfOk result (λ lines. AreRight boundary.now first_free_line lines) }
    {
        let boundary = boundary_lines(alloc, boundary)?;
        let diagonals = Diagonals::from(alloc, first_free_line);
        Ok(Lines {
            boundary,
            diagonals,
        })
    }

    fn line_of(&mut self, start: u32, end: u32) -> Result<Option<u32>, OutOfMemory>
        ensures line { IfOk result (λ line. IfSome line (λ l. IsLineIn self.new start end l)) }
        ensures extended { OnOk result (AreExtended self.old self.new) }
    {
        if let Some(line) = self.boundary.get(&edge_key(start, end)) {
            return Ok(Some(*line));
        }
        self.diagonals.line_of(pair_key(start, end))
    }

    fn triangle(&mut self, plane: u32, corners: &[u32; 3]) -> Result<Option<Triangle>, OutOfMemory>
        ensures named { IfOk result (λ named. IfSome named (λ t. IsNamed plane corners.now self.new t)) }
        ensures extended { OnOk result (AreExtended self.old self.new) }
    {
        let [a, b, c] = *corners;
        let first = self.line_of(a, b)?;
        let second = self.line_of(b, c)?;
        let third = self.line_of(c, a)?;
        let (Some(ab), Some(bc), Some(ca)) = (first, second, third) else {
            return Ok(None);
        };
        Ok(Some(Triangle {
            first: segment(plane, ab, a, b),
            second: segment(plane, bc, b, c),
            third: segment(plane, ca, c, a),
        }))
    }
}

/// The triangles with the lines of their edges: an edge with the start and the end of a segment of
/// the boundary has its line, and each pair of corners that a diagonal joins has a line of its own,
/// from the first free line on. None if there aren't enough lines below 2^32.
pub fn with_lines(
    alloc: Global,
    plane: u32,
    boundary: &[Segment],
    triangles: &[[u32; 3]],
    first_free_line: u32,
) -> Result<Option<Vec<Triangle>>, OutOfMemory>
    ensures { IfOk result (λ named. IfSome named (λ ts.
        AreWithLines plane boundary.now triangles.now first_free_line ts.items)) }
{
    if let [corners] = triangles
        && let Some(triangle) = whole_triangle(plane, boundary, corners)
    {
        let only = Vec::from_array(alloc, [triangle])?;
        return Ok(Some(only));
    }
    let mut lines = Lines::of(alloc, boundary, first_free_line)?;
    let mut named = Vec::with_capacity(alloc, triangles.len())?;
    for corners in triangles {
        let Some(triangle) = lines.triangle(plane, corners)? else {
            return Ok(None);
        };
        named.push(triangle)?;
    }
    Ok(Some(named))
}
