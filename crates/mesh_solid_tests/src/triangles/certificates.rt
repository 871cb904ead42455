// Whether triangles cut up a square with two sides.
use crate::triangles::cuts::plane;
use mesh_certificate::{
    LineKey, Segment, Triangle, are_closed, are_free_paired, faces_front, is_certified, same_chains,
};
use mesh_point::SpacePoint;
use std::alloc::Global;
use std::test::Fail;

// The corners of the square, and the middle of its first side.
const CORNERS: [SpacePoint; 5] = [
    SpacePoint {
        floor_x: 0,
        floor_y: 0,
        floor_z: 0,
        x: 0,
        y: 0,
        z: 0,
        w: 1,
    },
    SpacePoint {
        floor_x: 2,
        floor_y: 0,
        floor_z: 0,
        x: 0,
        y: 0,
        z: 0,
        w: 1,
    },
    SpacePoint {
        floor_x: 2,
        floor_y: 2,
        floor_z: 0,
        x: 0,
        y: 0,
        z: 0,
        w: 3,
    },
    SpacePoint {
        floor_x: 0,
        floor_y: 2,
        floor_z: 0,
        x: 0,
        y: 0,
        z: 0,
        w: 1,
    },
    SpacePoint {
        floor_x: 1,
        floor_y: 0,
        floor_z: 0,
        x: 0,
        y: 0,
        z: 0,
        w: 1,
    },
];

fn line(direction: [i128; 3], moment: [i128; 3]) -> LineKey {
    LineKey {
        dx: direction[0],
        dy: direction[1],
        dz: direction[2],
        mx: moment[0],
        my: moment[1],
        mz: moment[2],
    }
}

// The lines of the square's sides.
static SIDES: [LineKey; 4] = [
    LineKey {
        dx: 1,
        dy: 0,
        dz: 0,
        mx: 0,
        my: 0,
        mz: 0,
    },
    LineKey {
        dx: 0,
        dy: 1,
        dz: 0,
        mx: 0,
        my: 0,
        mz: 2,
    },
    LineKey {
        dx: 1,
        dy: 0,
        dz: 0,
        mx: 0,
        my: 0,
        mz: -2,
    },
    LineKey {
        dx: 0,
        dy: 1,
        dz: 0,
        mx: 0,
        my: 0,
        mz: 0,
    },
];

// The number of the line through two corners. Corner 4 lies on the line of corners 0 and 1. Lines on which there is
// no side aren't in the table.
fn line_through(i: u32, j: u32) -> u32 {
    match (i.min(j), i.max(j)) {
        (0, 1) | (0, 4) | (1, 4) => 0,
        (1, 2) => 1,
        (2, 3) => 2,
        (0, 3) => 3,
        (low, high) => low % 8 * 8 + high % 8 + 8,
    }
}

fn segment(plane: u32, start: u32, end: u32) -> Segment {
    Segment {
        plane,
        line: line_through(start, end),
        start,
        end,
    }
}

fn triangle(corners: [u32; 4]) -> Triangle {
    let [plane, a, b, c] = corners;
    Triangle {
        first: segment(plane, a, b),
        second: segment(plane, b, c),
        third: segment(plane, c, a),
    }
}

// Whether these triangles, of a plane and three corners each, and the others cut up the square. Plane 0 has its
// front, plane 1 its back.
fn is_cut_up(
    alloc: Global,
    lines: &[LineKey],
    rows: &[[u32; 4]],
    others: &[Triangle],
) -> Result<bool, Fail> {
    let planes = [plane([0, 0, 1, 0]), plane([0, 0, -1, 0])];
    let faces = [
        segment(0, 0, 1),
        segment(0, 1, 2),
        segment(0, 2, 3),
        segment(0, 3, 0),
        segment(1, 1, 0),
        segment(1, 2, 1),
        segment(1, 3, 2),
        segment(1, 0, 3),
    ];
    let mut triangles = Vec::with_capacity(alloc, rows.len())?;
    for row in rows {
        triangles.push(triangle(*row))?;
    }
    triangles.extend_from_slice(others)?;
    Ok(is_certified(alloc, &planes, lines, &CORNERS, &faces, &triangles)?)
}

// The same with the sides' true lines, and no other triangles.
fn is_cut_into(alloc: Global, rows: &[[u32; 4]]) -> Result<bool, Fail> {
    is_cut_up(alloc, &SIDES, rows, &[])
}

// Both sides of the square, cut by the same diagonal.
const DIAGONAL: [[u32; 4]; 4] = [[0, 0, 1, 2], [0, 0, 2, 3], [1, 0, 2, 1], [1, 0, 3, 2]];

// Whether those triangles and the others cut up the square.
fn is_diagonal_cut(alloc: Global, lines: &[LineKey], others: &[Triangle]) -> Result<bool, Fail> {
    is_cut_up(alloc, lines, &DIAGONAL, others)
}

// Each side cut by another diagonal.
const CROSSED: [[u32; 4]; 4] = [[0, 0, 1, 3], [0, 1, 2, 3], [1, 0, 2, 1], [1, 0, 3, 2]];

// The middle of the first side as a corner of triangles on both sides.
const IN_SIX: [[u32; 4]; 6] = [
    [0, 0, 4, 2],
    [0, 4, 1, 2],
    [0, 0, 2, 3],
    [1, 0, 2, 4],
    [1, 4, 2, 1],
    [1, 0, 3, 2],
];

static TRIANGLES_THAT_CUT_UP_A_SQUARE: [&[[u32; 4]]; 3] = [&DIAGONAL, &CROSSED, &IN_SIX];

#[test]
fn triangles_that_cut_up_a_square(rt: HostRuntime) -> Result<(), Fail> {
    for &triangles in &TRIANGLES_THAT_CUT_UP_A_SQUARE {
        assert!(rt; is_cut_into(rt.alloc(), triangles)?);
    }
    Ok(())
}

static TRIANGLES_THAT_DO_NOT_CUT_UP_A_SQUARE: [&[[u32; 4]]; 6] = [
    // One is missing, turned over, or there twice.
    &[[0, 0, 1, 2], [1, 0, 2, 1], [1, 0, 3, 2]],
    &[[0, 0, 2, 1], [0, 0, 2, 3], [1, 0, 2, 1], [1, 0, 3, 2]],
    &[
        [0, 0, 1, 2],
        [0, 0, 1, 2],
        [0, 0, 2, 3],
        [1, 0, 2, 1],
        [1, 0, 3, 2],
    ],
    // A T-junction on one side.
    &[
        [0, 0, 4, 2],
        [0, 4, 1, 2],
        [0, 0, 2, 3],
        [1, 0, 2, 1],
        [1, 0, 3, 2],
    ],
    // A corner and a plane that aren't in their tables.
    &[[0, 0, 1, 5]],
    &[[2, 0, 1, 2]],
];

#[test]
fn triangles_that_do_not_cut_up_a_square(rt: HostRuntime) -> Result<(), Fail> {
    for &triangles in &TRIANGLES_THAT_DO_NOT_CUT_UP_A_SQUARE {
        assert!(rt; !is_cut_into(rt.alloc(), triangles)?);
    }
    Ok(())
}

// A triangle whose three edges name one line.
fn on_one_line(line: u32, corners: [u32; 4]) -> Triangle {
    let [plane, a, b, c] = corners;
    Triangle {
        first: Segment {
            plane,
            line,
            start: a,
            end: b,
        },
        second: Segment {
            plane,
            line,
            start: b,
            end: c,
        },
        third: Segment {
            plane,
            line,
            start: c,
            end: a,
        },
    }
}

#[test]
fn a_needless_pair_of_triangles(rt: HostRuntime) -> Result<(), Fail> {
    // On a side, on a line that isn't in the table, and on right lines.
    let sides = SIDES;
    for line in [0, 3, 4, 40] {
        let pair = [
            on_one_line(line, [0, 0, 1, 2]),
            on_one_line(line, [1, 0, 2, 1]),
        ];
        assert!(rt; !is_diagonal_cut(rt.alloc(), &sides, &pair)?);
    }
    let pair = [triangle([0, 0, 1, 2]), triangle([1, 0, 2, 1])];
    assert!(rt; !is_diagonal_cut(rt.alloc(), &sides, &pair)?);
    Ok(())
}

#[test]
fn sides_off_their_lines(rt: HostRuntime) -> Result<(), Fail> {
    let wrong = [
        line([0, 0, 0], [0, 0, 0]),
        line([0, 0, 1], [0, 0, 0]),
        line([1, 1, 0], [0, 0, 0]),
        line([1, 0, 0], [0, 0, 1]),
        line([1, 0, 0], [0, 1, 0]),
    ];
    let others: [Triangle; 0] = [];
    for side in 0..SIDES.len() {
        for key in wrong {
            let mut lines = SIDES;
            lines[side] = key;
            assert!(rt; !is_diagonal_cut(rt.alloc(), &lines, &others)?);
        }
    }
    // Lines that no edge names may be anything, and those that aren't in the table aren't looked at.
    let mut more = [wrong[0]; 8];
    for side in 0..SIDES.len() {
        more[side] = SIDES[side];
    }
    let fewer = [SIDES[0], SIDES[1], SIDES[2]];
    assert!(rt; is_diagonal_cut(rt.alloc(), &more, &others)?);
    assert!(rt; !is_diagonal_cut(rt.alloc(), &fewer, &others)?);
    Ok(())
}

// A segment on a line that isn't in the table.
fn free_segment(plane: u32, start: u32, end: u32) -> Segment {
    Segment {
        plane,
        line: 40,
        start,
        end,
    }
}

#[test]
fn pairs_of_free_segments(rt: HostRuntime) -> Result<(), Fail> {
    let pair = [free_segment(0, 1, 2), free_segment(0, 2, 1)];
    let two_planes = [free_segment(0, 1, 2), free_segment(1, 2, 1)];
    let round = [
        free_segment(0, 1, 2),
        free_segment(0, 2, 3),
        free_segment(0, 3, 1),
    ];
    assert!(rt; are_free_paired(rt.alloc(), &SIDES, &pair)?);
    assert!(rt; !are_free_paired(rt.alloc(), &SIDES, &two_planes)?);
    assert!(rt; !are_free_paired(rt.alloc(), &SIDES, &round)?);
    // Sides aren't asked to be paired.
    assert!(rt; are_free_paired(rt.alloc(), &SIDES, &[segment(0, 0, 1)])?);
    Ok(())
}

#[test]
fn a_side_in_two_pieces_has_the_same_chain(rt: HostRuntime) -> Result<(), Fail> {
    let side = [segment(0, 0, 1)];
    let pieces = [segment(0, 0, 4), segment(0, 4, 1)];
    let round = [
        segment(0, 0, 4),
        segment(0, 4, 1),
        segment(1, 1, 4),
        segment(1, 4, 0),
    ];
    let folded = [segment(0, 0, 1), segment(1, 1, 4), segment(1, 4, 0)];
    assert!(rt; same_chains(rt.alloc(), &side, &pieces)?);
    assert!(rt; !same_chains(rt.alloc(), &side, &round)?);
    assert!(rt; are_closed(rt.alloc(), &round)?);
    assert!(rt; !are_closed(rt.alloc(), &folded)?);
    Ok(())
}

#[test]
fn fronts_of_slanted_planes(rt: HostRuntime) {
    let p = SpacePoint {
        floor_x: 6,
        floor_y: 0,
        floor_z: 0,
        x: 0,
        y: 0,
        z: 0,
        w: 1,
    };
    let q = SpacePoint {
        floor_x: 0,
        floor_y: 3,
        floor_z: 0,
        x: 0,
        y: 0,
        z: 0,
        w: 2,
    };
    let r = SpacePoint {
        floor_x: 0,
        floor_y: 0,
        floor_z: 2,
        x: 0,
        y: 0,
        z: 0,
        w: 3,
    };
    let slanted = [1, 2, 3, 6];
    let back = [-1, -2, -3, -6];
    let rows: [([i16; 4], SpacePoint, SpacePoint, SpacePoint, bool); 6] = [
        (slanted, p, q, r, true),
        (slanted, r, p, q, true),
        (slanted, q, p, r, false),
        (back, q, p, r, true),
        (slanted, p, p, r, false),
        ([0, 0, 1, 0], p, q, r, false),
    ];
    for (numbers, u, v, w, want) in rows {
        assert!(rt; faces_front(&plane(numbers), &u, &v, &w) == want);
    }
}
