// Corners in the user's unit, as floats and as decimals.
use crate::written::texts::point;
use ember_model::{Axis, Corner, Plane};
use mesh_certificate::{Segment, Triangle};
use mesh_grid::{GridStep, Offset};
use mesh_point::{SpacePoint, whole_point};
use mesh_write::{FloatPoint, FloatTriangle, IndexedTriangle};
use mesh_written::{
    DecimalMesh, PlaceFault, decimal_mesh, decimal_place, float_place, float_triangles,
    have_corners, put_place, shared_edges, shared_edges_by_index, written_places,
};
use std::test::Fail;

/// A step of the user's unit.
pub const UNIT: GridStep = GridStep {
    numerator: 1,
    denominator: 1,
};

/// A step of a tenth.
pub const TENTH: GridStep = GridStep {
    numerator: 1,
    denominator: 10,
};

/// No offset.
pub const AT_ZERO: Offset = Offset { x: 0, y: 0, z: 0 };

// 2^24 units up.
const UP: Offset = Offset {
    x: 0,
    y: 0,
    z: 16_777_216,
};

const TENTHS: SpacePoint = SpacePoint {
    floor_x: 5,
    floor_y: -3,
    floor_z: 0,
    x: 0,
    y: 0,
    z: 0,
    w: 1,
};

/// A corner at 1/3, -2/3 and 1.
pub const THIRDS: SpacePoint = SpacePoint {
    floor_x: 0,
    floor_y: -1,
    floor_z: 1,
    x: 1,
    y: 1,
    z: 0,
    w: 3,
};

const CORNERS_ARE_ROUNDED: [(SpacePoint, Axis, GridStep, Offset, u32, &[u8]); 6] = [
    (TENTHS, Axis::X, TENTH, AT_ZERO, 0x3f00_0000, b"0.5"),
    (TENTHS, Axis::Y, TENTH, AT_ZERO, 0xbe99_999a, b"-0.3"),
    (TENTHS, Axis::Z, TENTH, AT_ZERO, 0, b"0"),
    (THIRDS, Axis::X, UNIT, UP, 0x3eaa_aaab, b"0.333333"),
    (THIRDS, Axis::Y, UNIT, UP, 0xbf2a_aaab, b"-0.666667"),
    (THIRDS, Axis::Z, UNIT, UP, 0x4b80_0000, b"16777217"),
];

#[test]
fn corners_are_rounded(rt: HostRuntime) -> Result<(), Fail> {
    for (corner, axis, step, offset, bits, text) in CORNERS_ARE_ROUNDED {
        assert!(rt; 0 < step.numerator && step.numerator < 1 << 40);
        assert!(rt; 0 < step.denominator && step.denominator < 1 << 40);
        assert!(rt; float_place(&corner, axis, &step, &offset) == Some(bits));
        let mut out = Vec::new(rt.alloc());
        put_place(&corner, axis, &step, &offset, 6, &mut out)?;
        assert!(rt; out.as_slice() == text);
    }
    Ok(())
}

#[test]
fn a_corner_too_far_out(rt: HostRuntime) {
    let step = GridStep {
        numerator: 1_000_000_000_000,
        denominator: 1,
    };
    let offset = Offset {
        x: i128::MIN,
        y: 0,
        z: 1_000_000_000,
    };
    let mut out = Vec::new(rt.alloc());
    assert!(rt; float_place(&TENTHS, Axis::X, &step, &offset) == None);
    let far = put_place(&TENTHS, Axis::X, &step, &offset, 6, &mut out);
    assert!(rt; far == Err(PlaceFault::TooFar));
    let long = put_place(&TENTHS, Axis::Z, &step, &offset, 6, &mut out);
    assert!(rt; long == Err(PlaceFault::TooFar));
    assert!(rt; out.is_empty());
    assert!(rt; decimal_place(&TENTHS, Axis::Z, &step, &offset, 6) == None);
}

// An edge of a triangle, on a line that doesn't matter.
fn edge(plane: u32, start: u32, end: u32) -> Segment {
    Segment {
        plane,
        line: 0,
        start,
        end,
    }
}

/// A triangle of a plane by its corners.
pub fn triangle(plane: u32, a: u32, b: u32, c: u32) -> Triangle {
    Triangle {
        first: edge(plane, a, b),
        second: edge(plane, b, c),
        third: edge(plane, c, a),
    }
}

fn corner(x: i16, y: i16, z: i16) -> SpacePoint {
    whole_point(&Corner {
        x: i32::from(x),
        y: i32::from(y),
        z: i32::from(z),
    })
}

fn plane(a: i64, b: i64, c: i64, d: i64) -> Plane {
    Plane { a, b, c, d }
}

// 2^30 units up floats are 128 apart.
const HIGH: Offset = Offset {
    x: 0,
    y: 0,
    z: 1_073_741_824,
};

const HEIGHT: u32 = 0x4e80_0000;

const TEN: u32 = 0x4120_0000;

pub fn float_point(x: u32, y: u32, z: u32) -> FloatPoint {
    FloatPoint { x, y, z }
}

// A tetrahedron whose lowest and highest corner become equal.
#[test]
fn two_triangles_of_four_vanish(rt: HostRuntime) -> Result<(), Fail> {
    let corners = [
        corner(0, 0, 0),
        corner(10, 0, 0),
        corner(0, 10, 0),
        corner(0, 0, 1),
    ];
    let planes = [
        plane(0, 0, -1, 0),
        plane(0, -1, 0, 0),
        plane(-1, 0, 0, 0),
        plane(1, 1, 10, 10),
    ];
    let triangles = [
        triangle(0, 0, 2, 1),
        triangle(1, 0, 1, 3),
        triangle(2, 0, 3, 2),
        triangle(3, 1, 2, 3),
    ];
    assert!(rt; have_corners(&triangles, corners.len()));
    let written = float_triangles(rt.alloc(), &planes, &corners, &triangles, &UNIT, &HIGH)?;
    let want = [
        FloatTriangle {
            normal: float_point(0, 0, 0xbf80_0000),
            a: float_point(0, 0, HEIGHT),
            b: float_point(0, TEN, HEIGHT),
            c: float_point(TEN, 0, HEIGHT),
        },
        FloatTriangle {
            normal: float_point(0x3dca_c83f, 0x3dca_c83f, 0x3f7d_7a4f),
            a: float_point(TEN, 0, HEIGHT),
            b: float_point(0, TEN, HEIGHT),
            c: float_point(0, 0, HEIGHT),
        },
    ];
    assert!(rt; written.as_slice() == want.as_slice());
    Ok(())
}

#[test]
fn edges_of_more_than_two_triangles(rt: HostRuntime) -> Result<(), Fail> {
    let [p, q, r] = [
        float_point(0, 0, 0),
        float_point(TEN, 0, 0),
        float_point(0, TEN, 0),
    ];
    let front = FloatTriangle {
        normal: p,
        a: p,
        b: q,
        c: r,
    };
    let back = FloatTriangle {
        normal: p,
        a: q,
        b: p,
        c: r,
    };
    assert!(rt; shared_edges(rt.alloc(), &[])? == 0);
    assert!(rt; shared_edges(rt.alloc(), &[front, back])? == 0);
    assert!(rt; shared_edges(rt.alloc(), &[front, back, back, front])? == 3);
    Ok(())
}

#[test]
fn edges_of_more_than_two_triangles_over_vertices(rt: HostRuntime) -> Result<(), Fail> {
    let front = IndexedTriangle { a: 0, b: 1, c: 2 };
    let back = IndexedTriangle { a: 1, b: 0, c: 2 };
    assert!(rt; shared_edges_by_index(rt.alloc(), &[])? == 0);
    assert!(rt; shared_edges_by_index(rt.alloc(), &[front, back])? == 0);
    assert!(rt; shared_edges_by_index(rt.alloc(), &[front, back, back, front])? == 3);
    Ok(())
}

#[test]
fn corners_in_units_of_a_place(rt: HostRuntime) {
    let rows = [
        (TENTHS, Axis::X, TENTH, AT_ZERO, 1, 5),
        (TENTHS, Axis::X, TENTH, AT_ZERO, 0, 0),
        (TENTHS, Axis::Y, TENTH, AT_ZERO, 0, 0),
        (TENTHS, Axis::Y, TENTH, AT_ZERO, 2, -30),
        (THIRDS, Axis::X, UNIT, UP, 6, 333_333),
        (THIRDS, Axis::Y, UNIT, UP, 6, -666_667),
        (THIRDS, Axis::Z, UNIT, UP, 1, 167_772_170),
    ];
    for (corner, axis, step, offset, places, units) in rows {
        assert!(rt; 0 < step.numerator && step.numerator < 1 << 40);
        assert!(rt; 0 < step.denominator && step.denominator < 1 << 40);
        assert!(rt; places <= 17);
        assert!(rt; decimal_place(&corner, axis, &step, &offset, places) == Some(units));
    }
}

// A tetrahedron in tenths whose lowest and highest corner become equal without places.
#[test]
fn two_triangles_of_four_vanish_as_decimals(rt: HostRuntime) -> Result<(), Fail> {
    let corners = [
        corner(0, 0, 0),
        corner(10, 0, 0),
        corner(0, 10, 0),
        corner(0, 0, 1),
    ];
    let triangles = [
        triangle(0, 0, 2, 1),
        triangle(1, 0, 1, 3),
        triangle(2, 0, 3, 2),
        triangle(3, 1, 2, 3),
    ];
    assert!(rt; have_corners(&triangles, corners.len()));
    let DecimalMesh {
        mesh,
        planes,
        origins,
    } = decimal_mesh(rt.alloc(), &corners, &triangles, &TENTH, &AT_ZERO, 0)?;
    let vertices = [point(0, 0, 0), point(0, 1, 0), point(1, 0, 0)];
    let written = [
        IndexedTriangle { a: 0, b: 1, c: 2 },
        IndexedTriangle { a: 2, b: 1, c: 0 },
    ];
    assert!(rt; mesh.vertices() == vertices.as_slice());
    assert!(rt; mesh.triangles() == written.as_slice());
    assert!(rt; planes.as_slice() == [0, 3].as_slice());
    assert!(rt; origins.as_slice() == [0, 3].as_slice());
    Ok(())
}

static PLACES_OF_STEPS: [(u64, u64, u32); 7] = [
    (1, 1, 6),
    (5, 10, 7),
    (2, 100, 8),
    (1000, 100_000, 8),
    (9770, 1_000_000, 11),
    (1, 3, 17),
    (1, 1_000_000_000_000, 17),
];

#[test]
fn places_of_steps(rt: HostRuntime) {
    for &(numerator, denominator, places) in &PLACES_OF_STEPS {
        let step = GridStep {
            numerator,
            denominator,
        };
        assert!(rt; 0 < step.numerator && step.numerator < 1 << 40);
        assert!(rt; 0 < step.denominator && step.denominator < 1 << 40);
        assert!(rt; written_places(None, &step) == places);
        assert!(rt; written_places(Some(3), &step) == 3);
    }
}
