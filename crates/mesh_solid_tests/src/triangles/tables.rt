// The tables of small face files.
use ember_reread::read_faces;
use mesh_certificate::{LineKey, Segment};
use mesh_point::SpacePoint;
use mesh_solid::{TableFault, Tables, tables_of};
use std::alloc::Global;
use std::test::Fail;

/// The faces of a tetrahedron.
pub const TETRA: &[u8] = b"ember 1\n\
    f 0 0 -1 0 3\ne -1 0 0 0 0 0 0 1\ne 1 1 0 1 0 1 0 1\ne 0 -1 0 0 1 0 0 1\n\
    f 0 -1 0 0 3\ne 0 0 -1 0 0 0 0 1\ne 1 0 1 1 1 0 0 1\ne -1 0 0 0 0 0 1 1\n\
    f -1 0 0 0 3\ne 0 -1 0 0 0 0 0 1\ne 0 1 1 1 0 0 1 1\ne 0 0 -1 0 0 1 0 1\n\
    f 1 1 1 1 3\ne 0 0 -1 0 1 0 0 1\ne 0 1 1 1 0 1 0 1\ne 0 -1 0 0 0 0 1 1\n\
    end 4\n";

// The same faces, with other multiples of their planes.
const MULTIPLES: &[u8] = b"ember 1\n\
    f 0 0 -2 0 3\ne -3 0 0 0 0 0 0 1\ne 4 4 0 4 0 1 0 1\ne 0 -5 0 0 1 0 0 1\n\
    f 0 -3 0 0 3\ne 0 0 -7 0 0 0 0 1\ne 2 0 2 2 1 0 0 1\ne -1 0 0 0 0 0 1 1\n\
    f -5 0 0 0 3\ne 0 -9 0 0 0 0 0 1\ne 0 3 3 3 0 0 1 1\ne 0 0 -8 0 0 1 0 1\n\
    f 6 6 6 6 3\ne 0 0 -1 0 1 0 0 1\ne 0 5 5 5 0 1 0 1\ne 0 -2 0 0 0 0 1 1\n\
    end 4\n";

// Plane, line, start and end of each edge.
static EDGES: [[u32; 4]; 12] = [
    [0, 0, 0, 1],
    [0, 1, 1, 2],
    [0, 2, 2, 0],
    [1, 2, 0, 2],
    [1, 3, 2, 3],
    [1, 4, 3, 0],
    [2, 4, 0, 3],
    [2, 5, 3, 1],
    [2, 0, 1, 0],
    [3, 1, 2, 1],
    [3, 5, 1, 3],
    [3, 3, 3, 2],
];

fn tables_in(alloc: Global, file: &[u8]) -> Result<Tables, TableFault> {
    match read_faces(alloc, file) {
        Ok(faces) => tables_of(alloc, faces.items()),
        Err(_) => Err(TableFault::OutOfMemory),
    }
}

fn are_edges(segments: &[Segment]) -> bool {
    if segments.len() != EDGES.len() {
        return false;
    }
    for i in 0..EDGES.len() {
        let s = &segments[i];
        if [s.plane, s.line, s.start, s.end] != EDGES[i] {
            return false;
        }
    }
    true
}

// The fourth line and the fourth corner of the tetrahedron.
fn are_fourth(line: &LineKey, corner: &SpacePoint) -> bool {
    (line.dx, line.dy, line.dz) == (1, 0, -1)
        && (line.mx, line.my, line.mz) == (0, 1, 0)
        && (corner.floor_x, corner.floor_y, corner.floor_z) == (0, 0, 1)
        && (corner.x, corner.y, corner.z, corner.w) == (0, 0, 0, 1)
}

fn is_tetrahedron(tables: &Tables) -> bool {
    if tables.lines.len() != 6 || tables.corners.len() != 4 {
        return false;
    }
    tables.planes.len() == 4
        && are_edges(&tables.segments)
        && are_fourth(&tables.lines[3], &tables.corners[3])
}

#[test]
fn a_tetrahedron_has_four_planes_and_six_lines(rt: HostRuntime) -> Result<(), Fail> {
    let tables = tables_in(rt.alloc(), TETRA)?;
    assert!(rt; is_tetrahedron(&tables));
    let tables = tables_in(rt.alloc(), MULTIPLES)?;
    assert!(rt; is_tetrahedron(&tables));
    Ok(())
}

static EDGES_WITHOUT_A_LINE_OR_A_CORNER: [(&[u8], TableFault); 2] = [
    (
        b"ember 1\nf 0 0 1 0 3\ne 0 0 2 5 0 0 0 1\ne 1 0 0 0 0 0 0 1\ne 0 1 0 0 0 0 0 1\nend 1\n",
        TableFault::NoLine(0),
    ),
    (
        b"ember 1\nf 0 0 1 0 3\ne 1 0 0 0 0 0 0 1\ne 1 0 0 5 0 0 0 1\ne 0 1 0 0 0 0 0 1\nend 1\n",
        TableFault::NoCorner(0),
    ),
];

// The file has no tables, for this fault.
fn is_refused(alloc: Global, file: &[u8], want: TableFault) -> bool {
    match tables_in(alloc, file) {
        Ok(_tables) => false,
        Err(fault) => fault == want,
    }
}

#[test]
fn edges_without_a_line_or_a_corner(rt: HostRuntime) {
    for &(file, fault) in &EDGES_WITHOUT_A_LINE_OR_A_CORNER {
        assert!(rt; is_refused(rt.alloc(), file, fault));
    }
}
