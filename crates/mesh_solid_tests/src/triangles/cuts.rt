// Parts of planes are cut into triangles, which the checker certifies.
ghost use Rattle.ember_model.specs.Valid.{IsValidPlane};
ghost use Rattle.ember_width.specs.Broad.{IsBroadPlane};

use ember_model::Plane;
use mesh_certificate::{LineKey, Segment, Triangle, is_certified};
use mesh_point::SpacePoint;
use mesh_triangulate::{Touch, Triangulation, triangles_of, with_lines};
use std::alloc::Global;
use std::test::Fail;

// The plane with this normal and constant.
pub(crate) fn plane(numbers: [i16; 4]) -> Plane
    ensures valid { IsValidPlane result }
    ensures broad { IsBroadPlane result }
{
    Plane {
        a: i64::from(numbers[0]),
        b: i64::from(numbers[1]),
        c: i64::from(numbers[2]),
        d: i64::from(numbers[3]),
    }
}

// What becomes of a part.
#[derive(Clone, Copy, PartialEq, Eq)]
enum Outcome {
    Certified,
    Refused,
    // So many touches, and the first of them.
    Touches(usize, Touch),
    NotFound,
}

// Planes along each axis, with the two sides of each.
static SHEETS: [[[i16; 4]; 2]; 3] = [
    [[0, 0, 1, 0], [0, 0, -1, 0]],
    [[0, 3, 0, 0], [0, -3, 0, 0]],
    [[1, 1, 1, 0], [-1, -1, -1, 0]],
];

// The point with these coordinates, in thirds.
pub(crate) fn thirds(x: i32, y: i32, z: i32) -> SpacePoint {
    SpacePoint {
        floor_x: x.div_euclid(3),
        floor_y: y.div_euclid(3),
        floor_z: z.div_euclid(3),
        x: i128::from(x.rem_euclid(3)),
        y: i128::from(y.rem_euclid(3)),
        z: i128::from(z.rem_euclid(3)),
        w: 3,
    }
}

// The coordinates of the corner of the sheet that is seen from its first side at the place (x, y), in thirds.
fn coordinates_at(sheet: usize, place: (i16, i16)) -> [i32; 3] {
    let (x, y) = (i32::from(place.0), i32::from(place.1));
    match sheet {
        0 => [x, y, 0],
        1 => [y, 0, x],
        _ => [x.wrapping_add(y).wrapping_neg(), x, y],
    }
}

fn moment(y: i64, dz: i64, z: i64, dy: i64) -> i128 {
    i128::from(y.wrapping_mul(dz).wrapping_sub(z.wrapping_mul(dy)))
}

// The line through two points, given in thirds.
fn line_through(u: [i32; 3], v: [i32; 3]) -> LineKey {
    let (x, y, z) = (i64::from(u[0]), i64::from(u[1]), i64::from(u[2]));
    let dx = i64::from(v[0]).wrapping_sub(x);
    let dy = i64::from(v[1]).wrapping_sub(y);
    let dz = i64::from(v[2]).wrapping_sub(z);
    LineKey {
        dx: i128::from(dx.wrapping_mul(3)),
        dy: i128::from(dy.wrapping_mul(3)),
        dz: i128::from(dz.wrapping_mul(3)),
        mx: moment(y, dz, z, dy),
        my: moment(z, dx, x, dz),
        mz: moment(x, dy, y, dx),
    }
}

// The lines of a sheet's segments, each of which has a line of its own.
fn lines_of(
    alloc: Global,
    sheet: usize,
    places: &[(i16, i16)],
    boundary: &[Segment],
) -> Result<Vec<LineKey>, Fail> {
    let mut lines = Vec::new(alloc);
    for s in boundary {
        let start = places.get(s.start as usize).ok_or("no corner")?;
        let end = places.get(s.end as usize).ok_or("no corner")?;
        lines.push(line_through(coordinates_at(sheet, *start), coordinates_at(sheet, *end)))?;
    }
    Ok(lines)
}

// The segment of the first side from one corner to another.
fn segment(line: u32, start: u32, end: u32) -> Segment {
    Segment {
        plane: 0,
        line,
        start,
        end,
    }
}

// The segments of rings of corners on the first side, each on a line of its own.
fn boundary_of(alloc: Global, rings: &[&[u32]]) -> Result<Vec<Segment>, Fail> {
    let mut boundary: Vec<Segment> = Vec::new(alloc);
    for ring in rings {
        let Some(mut start) = ring.last().copied() else {
            continue;
        };
        for end in *ring {
            let line = u32::try_from(boundary.len())?;
            boundary.push(segment(line, start, *end))?;
            start = *end;
        }
    }
    Ok(boundary)
}

// The same segments on the second side.
fn reversed(alloc: Global, boundary: &[Segment]) -> Result<Vec<Segment>, Fail> {
    let mut back = Vec::new(alloc);
    for s in boundary {
        back.push(Segment {
            plane: 1,
            line: s.line,
            start: s.end,
            end: s.start,
        })?;
    }
    Ok(back)
}

// Adds the triangles of a side, or gives what has become of it.
fn push_side(
    alloc: Global,
    plane: &Plane,
    corners: &[SpacePoint],
    boundary: &[Segment],
    triangles: &mut Vec<Triangle>,
) -> Result<Option<Outcome>, Fail> {
    let cut = match triangles_of(alloc, plane, corners, boundary)? {
        Triangulation::Triangles(cut) => cut,
        Triangulation::Touches(touches) => {
            let first = *touches.first().ok_or("no touch")?;
            return Ok(Some(Outcome::Touches(touches.len(), first)));
        }
        Triangulation::NotFound => return Ok(Some(Outcome::NotFound)),
    };
    let number = boundary.first().map_or(0, |s| s.plane);
    let first_free_line = u32::try_from(boundary.len())?;
    let named = with_lines(alloc, number, boundary, &cut, first_free_line)?;
    triangles.extend_from_slice(&named.ok_or("no line is left")?)?;
    Ok(None)
}

// The corners of a sheet.
fn corners_of(alloc: Global, sheet: usize, places: &[(i16, i16)]) -> Result<Vec<SpacePoint>, Fail> {
    let mut corners = Vec::new(alloc);
    for place in places {
        let [x, y, z] = coordinates_at(sheet, *place);
        corners.push(thirds(x, y, z))?;
    }
    Ok(corners)
}

// Whether the checker certifies the triangles of a sheet's two sides.
fn are_certified(
    alloc: Global,
    sheet: usize,
    places: &[(i16, i16)],
    [boundary, reverse]: [&[Segment]; 2],
    triangles: &[Triangle],
) -> Result<bool, Fail> {
    let [front, back] = SHEETS[sheet % 3];
    let planes = [plane(front), plane(back)];
    let corners = corners_of(alloc, sheet % 3, places)?;
    let mut faces = Vec::from_slice(alloc, boundary)?;
    faces.extend_from_slice(reverse)?;
    let lines = lines_of(alloc, sheet % 3, places, boundary)?;
    Ok(is_certified(alloc, &planes, &lines, &corners, &faces, triangles)?)
}

// Adds the triangles of a sheet's two sides, or gives what has become of one.
fn push_sides(
    alloc: Global,
    sheet: usize,
    places: &[(i16, i16)],
    [boundary, reverse]: [&[Segment]; 2],
    triangles: &mut Vec<Triangle>,
) -> Result<Option<Outcome>, Fail> {
    let [front, back] = SHEETS[sheet % 3];
    let corners = corners_of(alloc, sheet % 3, places)?;
    match push_side(alloc, &plane(front), &corners, boundary, triangles)? {
        Some(outcome) => Ok(Some(outcome)),
        None => push_side(alloc, &plane(back), &corners, reverse, triangles),
    }
}

// What becomes of a sheet's two sides.
fn outcome_of(
    alloc: Global,
    sheet: usize,
    places: &[(i16, i16)],
    boundary: &[Segment],
) -> Result<Outcome, Fail> {
    let reverse = reversed(alloc, boundary)?;
    let sides = [boundary, reverse.as_slice()];
    let mut triangles = Vec::new(alloc);
    if let Some(outcome) = push_sides(alloc, sheet, places, sides, &mut triangles)? {
        return Ok(outcome);
    }
    if are_certified(alloc, sheet, places, sides, &triangles)? {
        Ok(Outcome::Certified)
    } else {
        Ok(Outcome::Refused)
    }
}

static SQUARES: [(i16, i16); 15] = [
    (0, 0),
    (9, 0),
    (9, 9),
    (0, 9),
    (2, 2),
    (7, 2),
    (7, 7),
    (2, 7),
    (4, 4),
    (5, 4),
    (5, 5),
    (4, 5),
    (4, 0),
    (6, 0),
    (0, 4),
];

// What becomes of rings of these corners.
fn outcome_of_rings(alloc: Global, sheet: usize, rings: &[&[u32]]) -> Result<Outcome, Fail> {
    let boundary = boundary_of(alloc, rings)?;
    outcome_of(alloc, sheet, &SQUARES, &boundary)
}

// Parts that are cut into triangles.
static PARTS: [&[&[u32]]; 9] = [
    &[&[0, 1, 2]],
    &[&[0, 1, 2, 3]],
    // A quadrangle that is cut by only one of its diagonals.
    &[&[0, 9, 2, 7]],
    &[&[0, 9, 1, 2]],
    // A hole, an island in it, and a part with three holes.
    &[&[0, 1, 2, 3], &[7, 6, 5, 4]],
    &[&[0, 1, 2, 3], &[7, 6, 5, 4], &[8, 9, 10, 11]],
    // Two squares and two holes that have a corner in common.
    &[&[4, 9, 10, 11], &[10, 1, 2]],
    &[&[0, 1, 2, 3], &[4, 7, 8], &[8, 6, 5]],
    &[&[0, 12, 1, 2, 3], &[12, 4, 8]],
];

#[test]
fn parts_of_squares(rt: HostRuntime) -> Result<(), Fail> {
    for sheet in 0..3 {
        for &rings in &PARTS {
            let outcome = outcome_of_rings(rt.alloc(), sheet, rings)?;
            assert!(rt; outcome == Outcome::Certified);
        }
    }
    Ok(())
}

#[test]
fn parts_that_are_not_cut(rt: HostRuntime) -> Result<(), Fail> {
    let touch = Touch {
        corner: 12,
        line: 1,
    };
    let touch_on_another_side = Touch {
        corner: 14,
        line: 0,
    };
    let rows: [(&[&[u32]], Outcome); 5] = [
        (&[&[0, 1, 2, 3], &[12, 4, 8]], Outcome::Touches(1, touch)),
        // Two corners inside one side, and two inside different ones.
        (
            &[&[0, 1, 2, 3], &[12, 4, 8], &[13, 9, 5]],
            Outcome::Touches(2, touch),
        ),
        (
            &[&[0, 1, 2, 3], &[14, 8, 4], &[13, 9, 5]],
            Outcome::Touches(2, touch_on_another_side),
        ),
        // The wrong way round, and a corner that isn't there.
        (&[&[2, 1, 0]], Outcome::Refused),
        (&[&[0, 1, 2, 3, 15]], Outcome::NotFound),
    ];
    for sheet in 0..3 {
        for (rings, want) in rows {
            let outcome = outcome_of_rings(rt.alloc(), sheet, rings)?;
            assert!(rt; outcome == want);
        }
    }
    Ok(())
}

// The next number of a sequence that looks random.
fn next_number(seed: u64) -> u64 {
    seed.wrapping_mul(6_364_136_223_846_793_005)
        .wrapping_add(1_442_695_040_888_963_407)
}

// A star seen from (0, 0): its 48 corners are at random distances from `least` on, counter-clockwise.
fn push_star(places: &mut Vec<(i16, i16)>, seed: u64, least: u8) -> Result<(), Fail> {
    let mut seed = seed;
    for k in 0i16..48 {
        seed = next_number(seed);
        let far = i16::from(least) + i16::from((seed >> 60) as u8 % 8);
        let along = k % 12 - 6;
        let (x, y) = match k / 12 {
            0 => (6, along),
            1 => (-along, 6),
            2 => (-6, -along),
            _ => (along, -6),
        };
        places.push((x.wrapping_mul(far), y.wrapping_mul(far)))?;
    }
    Ok(())
}

// The boundary of a star, or of one with another as its hole.
fn star_boundary(alloc: Global, has_hole: bool) -> Result<Vec<Segment>, Fail> {
    let mut outside = Vec::new(alloc);
    let mut hole = Vec::new(alloc);
    for k in 0u32..48 {
        outside.push(k)?;
        hole.push(95 - k)?;
    }
    if has_hole {
        boundary_of(alloc, &[&outside, &hole])
    } else {
        boundary_of(alloc, &[&outside])
    }
}

fn outcome_of_star(alloc: Global, seed: u32, has_hole: bool) -> Result<Outcome, Fail> {
    let mut places = Vec::new(alloc);
    push_star(&mut places, u64::from(seed), 9)?;
    push_star(&mut places, u64::from(seed).wrapping_add(100), 1)?;
    let boundary = star_boundary(alloc, has_hole)?;
    outcome_of(alloc, seed as usize, &places, &boundary)
}

#[test]
fn stars_with_a_hole(rt: HostRuntime) -> Result<(), Fail> {
    for seed in 0u32..12 {
        for has_hole in [false, true] {
            let outcome = outcome_of_star(rt.alloc(), seed, has_hole)?;
            assert!(rt; outcome == Outcome::Certified);
        }
    }
    Ok(())
}

// The corners of a comb of 200 teeth, which point in one of four directions.
fn push_comb(places: &mut Vec<(i16, i16)>, turns: u8) -> Result<(), Fail> {
    for k in 0i16..402 {
        let (x, y) = match k {
            0 => (0, -9),
            1 => (400, -9),
            _ => (402i16.wrapping_sub(k), k % 2 * 9),
        };
        let place = match turns {
            0 => (x, y),
            1 => (y.wrapping_neg(), x),
            2 => (x.wrapping_neg(), y.wrapping_neg()),
            _ => (y, x.wrapping_neg()),
        };
        places.push(place)?;
    }
    Ok(())
}

fn outcome_of_comb(alloc: Global, turns: u8) -> Result<Outcome, Fail> {
    let mut places = Vec::new(alloc);
    push_comb(&mut places, turns)?;
    let mut ring = Vec::new(alloc);
    for k in 0u32..402 {
        ring.push(k)?;
    }
    let boundary = boundary_of(alloc, &[&ring])?;
    outcome_of(alloc, 0, &places, &boundary)
}

#[test]
fn combs_in_four_directions(rt: HostRuntime) -> Result<(), Fail> {
    for turns in 0u8..4 {
        let outcome = outcome_of_comb(rt.alloc(), turns)?;
        assert!(rt; outcome == Outcome::Certified);
    }
    Ok(())
}
