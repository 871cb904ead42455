// Faces become certified triangles.
ghost use Rattle.std.specs.Prelude.{All, IfOk};
ghost use Rattle.ember_width.specs.Broad.{IsBroadPlane};
ghost use Rattle.mesh_triangles.specs.PlaneQueries.{IsPlaneAnswer, IsPlaneQuery};

use crate::triangles::cuts::{plane, thirds};
use ember_model::Plane;
use mesh_certificate::{LineKey, Segment, line_key};
use mesh_point::SpacePoint;
use mesh_triangles::{
    PlaneAnswer, PlaneQuery, TrianglesFault, answer_planes_alone, certified_triangles,
};
use std::alloc::Global;

// The lines in which pairs of planes meet, by the numbers of the planes.
fn lines_of(alloc: Global, pairs: &[[[i16; 4]; 2]]) -> Result<Vec<LineKey>, TrianglesFault> {
    let mut lines = Vec::new(alloc);
    for pair in pairs {
        let [first, second] = *pair;
        let Some(line) = line_key(&plane(first), &plane(second)) else {
            return Err(TrianglesFault::UnknownLine(0));
        };
        lines.push(line)?;
    }
    Ok(lines)
}

// How many triangles the faces become.
fn count_of(
    alloc: Global,
    planes: &[Plane],
    lines: &[LineKey],
    corners: &[SpacePoint],
    segments: &[Segment],
) -> Result<usize, TrianglesFault>
    requires { All IsBroadPlane planes.now }
{
    let triangles = certified_triangles(
        alloc,
        planes,
        lines,
        corners,
        segments,
        &|query: &PlaneQuery| -> Result<PlaneAnswer, TrianglesFault>
            requires { IsPlaneQuery query.now }
            ensures { IfOk result (IsPlaneAnswer query.entry.now) }
        { answer_planes_alone(alloc, query) },
    )?;
    Ok(triangles.len())
}

// The corners of a sheet in the plane z = 0.
static PLACES: [(i32, i32); 15] = [
    (0, 0),
    (2, 0),
    (4, 0),
    (4, 2),
    (2, 2),
    (0, 2),
    (1, 1),
    (3, 1),
    (10, 10),
    (12, 10),
    (11, 12),
    (9, 12),
    (8, 10),
    (9, 8),
    (11, 8),
];

// The lines on which the sheet has edges: its plane, and one that meets it there.
static SHEET_LINES: [[[i16; 4]; 2]; 14] = [
    [[0, 0, 1, 0], [0, 1, 0, 0]],
    [[0, 0, 1, 0], [0, 3, 0, 2]],
    [[0, 0, 1, 0], [1, 0, 0, 0]],
    [[0, 0, 1, 0], [3, 0, 0, 2]],
    [[0, 0, 1, 0], [3, 0, 0, 4]],
    [[0, 0, 1, 0], [3, 3, 0, 2]],
    [[0, 0, 1, 0], [0, 3, 0, 1]],
    [[0, 0, 1, 0], [3, -3, 0, 2]],
    [[0, 0, 1, 0], [0, 3, 0, 10]],
    [[0, 0, 1, 0], [6, -3, 0, 10]],
    [[0, 0, 1, 0], [6, 3, 0, 30]],
    [[0, 0, 1, 0], [6, 3, 0, 34]],
    [[0, 0, 1, 0], [6, -3, 0, 6]],
    [[0, 0, 1, 0], [0, 3, 0, 8]],
];

// An edge of a face, by the numbers of its plane, line and corners.
fn edge_of(plane: u32, line: u32, start: u32, end: u32) -> Segment {
    Segment {
        plane,
        line,
        start,
        end,
    }
}

// Adds a ring on the sheet's first side, and its reverse on the second side if that isn't open. Each edge
// is given by its line and its end.
fn push_ring(
    segments: &mut Vec<Segment>,
    ring: &[(u32, u32)],
    is_open: bool,
) -> Result<(), TrianglesFault> {
    let Some((_, mut start)) = ring.last().copied() else {
        return Ok(());
    };
    for edge in ring {
        let (line, end) = *edge;
        segments.push(edge_of(0, line, start, end))?;
        if !is_open {
            segments.push(edge_of(1, line, end, start))?;
        }
        start = end;
    }
    Ok(())
}

// How many triangles the two sides of a sheet become.
fn sheet_count(
    alloc: Global,
    rings: &[&[(u32, u32)]],
    is_open: bool,
) -> Result<usize, TrianglesFault> {
    let planes = [plane([0, 0, 1, 0]), plane([0, 0, -1, 0])];
    let mut corners = Vec::new(alloc);
    for &(x, y) in &PLACES {
        corners.push(thirds(x, y, 0))?;
    }
    let mut segments = Vec::new(alloc);
    for ring in rings {
        push_ring(&mut segments, ring, is_open)?;
    }
    let lines = lines_of(alloc, &SHEET_LINES)?;
    count_of(alloc, &planes, &lines, &corners, &segments)
}

const LEFT: &[(u32, u32)] = &[(0, 1), (3, 4), (1, 5), (2, 0)];

const RIGHT: &[(u32, u32)] = &[(0, 2), (4, 3), (1, 4), (3, 1)];

const BOTH: &[(u32, u32)] = &[(0, 2), (4, 3), (1, 5), (2, 0)];

const HOLE: &[(u32, u32)] = &[(5, 6), (6, 7), (7, 1)];

const EAST: &[(u32, u32)] = &[(8, 9), (11, 10), (9, 8)];

const WEST: &[(u32, u32)] = &[(10, 11), (12, 12), (8, 8)];

const SOUTH: &[(u32, u32)] = &[(9, 13), (13, 14), (10, 8)];

const OVERLAP: TrianglesFault = TrianglesFault::Overlap { plane: 0, line: 0 };

static SHEETS: [(&[&[(u32, u32)]], bool, Result<usize, TrianglesFault>); 7] = [
    (&[], false, Ok(0)),
    // The side that two squares have in common cancels.
    (&[LEFT], false, Ok(4)),
    (&[LEFT, RIGHT], false, Ok(4)),
    (&[LEFT, RIGHT], true, Err(TrianglesFault::NotClosed(0))),
    (&[LEFT, LEFT], false, Err(OVERLAP)),
    // A corner of the hole lies inside an edge.
    (&[BOTH, HOLE], false, Ok(12)),
    // Three edges of the boundary cross in a corner, where none of them changes.
    (&[EAST, WEST, SOUTH], false, Ok(6)),
];

#[test]
fn sheets(rt: HostRuntime) {
    for &(rings, is_open, want) in &SHEETS {
        assert!(rt; sheet_count(rt.alloc(), rings, is_open) == want);
    }
}

// Numbers that are no line's.
const NO_LINE: LineKey = LineKey {
    dx: 0,
    dy: 0,
    dz: 0,
    mx: 0,
    my: 0,
    mz: 0,
};

// The edges of the tetrahedron with the corners (0, 0, 0), (1, 0, 0), (0, 1, 0) and (0, 0, 1): their planes, lines
// and ends.
static TETRAHEDRON: [(u32, u32, u32, u32); 12] = [
    (0, 1, 0, 2),
    (0, 3, 2, 1),
    (0, 0, 1, 0),
    (1, 0, 0, 1),
    (1, 4, 1, 3),
    (1, 2, 3, 0),
    (2, 2, 0, 3),
    (2, 5, 3, 2),
    (2, 1, 2, 0),
    (3, 3, 1, 2),
    (3, 5, 2, 3),
    (3, 4, 3, 1),
];

// The lines of its edges.
static TETRAHEDRON_LINES: [[[i16; 4]; 2]; 6] = [
    [[0, 1, 0, 0], [0, 0, 1, 0]],
    [[1, 0, 0, 0], [0, 0, 1, 0]],
    [[1, 0, 0, 0], [0, 1, 0, 0]],
    [[0, 0, 1, 0], [1, 1, 1, 1]],
    [[0, 1, 0, 0], [1, 1, 1, 1]],
    [[1, 0, 0, 0], [1, 1, 1, 1]],
];

// How many triangles these edges of the tetrahedron's faces become, on these lines.
fn tetrahedron_count(
    alloc: Global,
    lines: &[LineKey],
    edges: &[(u32, u32, u32, u32)],
) -> Result<usize, TrianglesFault> {
    let planes = [
        plane([0, 0, -1, 0]),
        plane([0, -1, 0, 0]),
        plane([-1, 0, 0, 0]),
        plane([1, 1, 1, 1]),
    ];
    let corners = [
        thirds(0, 0, 0),
        thirds(3, 0, 0),
        thirds(0, 3, 0),
        thirds(0, 0, 3),
    ];
    let mut segments = Vec::new(alloc);
    for (plane, line, start, end) in edges {
        segments.push(edge_of(*plane, *line, *start, *end))?;
    }
    count_of(alloc, &planes, lines, &corners, &segments)
}

// The count on all lines of the table.
fn count_of_edges(alloc: Global, edges: &[(u32, u32, u32, u32)]) -> Result<usize, TrianglesFault> {
    let lines = lines_of(alloc, &TETRAHEDRON_LINES)?;
    tetrahedron_count(alloc, &lines, edges)
}

#[test]
fn faces_of_a_tetrahedron(rt: HostRuntime) {
    assert!(rt; count_of_edges(rt.alloc(), &TETRAHEDRON) == Ok(4));
    let open = &TETRAHEDRON[..11];
    assert!(rt; count_of_edges(rt.alloc(), open) == Err(TrianglesFault::NotClosed(4)));
}

// How a line is changed.
#[derive(Clone, Copy)]
enum Change {
    Shifted,
    Zeros,
    // A line of zeros comes behind all others.
    More,
}

// The count of all edges with the line of this number changed.
fn count_with(alloc: Global, number: usize, change: Change) -> Result<usize, TrianglesFault> {
    let mut lines = lines_of(alloc, &TETRAHEDRON_LINES)?;
    if let Change::More = change {
        lines.push(NO_LINE)?;
    } else if let Some(line) = lines.get_mut(number) {
        match change {
            Change::Shifted => line.mx = line.mx.wrapping_add(1),
            _ => *line = NO_LINE,
        }
    }
    tetrahedron_count(alloc, &lines, &TETRAHEDRON)
}

#[test]
fn edges_off_the_lines_of_the_table(rt: HostRuntime) {
    let wrong = Err(TrianglesFault::NotCertified);
    for number in 0..6 {
        assert!(rt; count_with(rt.alloc(), number, Change::Shifted) == wrong);
        assert!(rt; count_with(rt.alloc(), number, Change::Zeros) == wrong);
    }
    // A line without edges may be anything.
    assert!(rt; count_with(rt.alloc(), 6, Change::More) == Ok(4));
}
