// How far corners move when they are written.
use crate::written::written::{AT_ZERO, TENTH, THIRDS, UNIT, triangle};
use mesh_certificate::Triangle;
use mesh_effect::{Move, greatest_decimal_move, greatest_float_move, is_above_hundredth, put_move};
use mesh_grid::GridStep;
use mesh_point::SpacePoint;
use mesh_written::float_points;
use std::alloc::Global;
use std::test::Fail;

const THIRD: SpacePoint = SpacePoint {
    floor_x: 0,
    floor_y: 0,
    floor_z: 0,
    x: 1,
    y: 0,
    z: 0,
    w: 3,
};

const WHOLE: SpacePoint = SpacePoint {
    floor_x: 7,
    floor_y: -2,
    floor_z: 1,
    x: 0,
    y: 0,
    z: 0,
    w: 1,
};

// A triangle of one corner.
fn of_one_corner() -> [Triangle; 1] {
    [triangle(0, 0, 0, 0)]
}

// The text of the length is this.
fn is_written(alloc: Global, moved: &Move, want: &[u8]) -> bool {
    let mut text = Vec::new(alloc);
    let is_put = put_move(moved, &mut text).is_ok();
    is_put && text.as_slice() == want
}

#[test]
fn moves_to_decimals(rt: HostRuntime) -> Result<(), Fail> {
    let alloc = rt.alloc();
    let rows: [(SpacePoint, GridStep, u32, &[u8]); 6] = [
        (THIRD, UNIT, 6, b"3.33333334e-07"),
        (THIRD, UNIT, 0, b"0.333333334"),
        (THIRD, TENTH, 3, b"0.000333333334"),
        (THIRDS, UNIT, 6, b"4.71404521e-07"),
        (WHOLE, UNIT, 0, b"0"),
        (WHOLE, TENTH, 1, b"0"),
    ];
    for (corner, step, places, want) in rows {
        assert!(rt; 0 < step.numerator && step.numerator < 1 << 40);
        assert!(rt; 0 < step.denominator && step.denominator < 1 << 40);
        assert!(rt; places <= 17);
        let moved = greatest_decimal_move(
            alloc,
            &[corner],
            &of_one_corner(),
            &step,
            &AT_ZERO,
            places,
        )?;
        assert!(rt; is_written(alloc, &moved, want));
    }
    Ok(())
}

const ONE: SpacePoint = SpacePoint {
    floor_x: 1,
    floor_y: 0,
    floor_z: 0,
    x: 0,
    y: 0,
    z: 0,
    w: 1,
};

#[test]
fn moves_to_floats(rt: HostRuntime) -> Result<(), Fail> {
    let alloc = rt.alloc();
    let rows: [(SpacePoint, GridStep, &[u8]); 3] = [
        (ONE, TENTH, b"1.49011612e-09"),
        (THIRDS, UNIT, b"2.22133396e-08"),
        (WHOLE, UNIT, b"0"),
    ];
    for (corner, step, want) in rows {
        assert!(rt; 0 < step.numerator && step.numerator < 1 << 40);
        assert!(rt; 0 < step.denominator && step.denominator < 1 << 40);
        let corners = [corner];
        let points = float_points(alloc, &corners, &step, &AT_ZERO)?;
        let moved = greatest_float_move(
            alloc,
            &corners,
            &points,
            &of_one_corner(),
            &step,
            &AT_ZERO,
        )?;
        assert!(rt; is_written(alloc, &moved, want));
    }
    Ok(())
}

#[test]
fn moves_are_written(rt: HostRuntime) {
    let rows: [(Move, &[u8]); 3] = [
        (
            Move {
                size: 0,
                places: 38,
            },
            b"0",
        ),
        (
            Move {
                size: 123_456_789_000,
                places: 0,
            },
            b"123456789000",
        ),
        (
            Move {
                size: 100_000_000,
                places: 12,
            },
            b"0.0001",
        ),
    ];
    for (moved, want) in rows {
        assert!(rt; is_written(rt.alloc(), &moved, want));
    }
}

#[test]
fn moves_below_a_ten_thousandth_have_an_exponent(rt: HostRuntime) {
    let rows: [(Move, &[u8]); 4] = [
        (
            Move {
                size: 149_011_612,
                places: 17,
            },
            b"1.49011612e-09",
        ),
        (
            Move {
                size: 200_000_000,
                places: 13,
            },
            b"2e-05",
        ),
        (
            Move {
                size: 999_999_999,
                places: 13,
            },
            b"9.99999999e-05",
        ),
        (
            Move {
                size: 1,
                places: 38,
            },
            b"1e-38",
        ),
    ];
    for (moved, want) in rows {
        assert!(rt; is_written(rt.alloc(), &moved, want));
    }
}

#[test]
fn above_a_hundredth_of_the_step(rt: HostRuntime) {
    let hundredth = Move { size: 1, places: 3 };
    let more = Move {
        size: 100_001,
        places: 8,
    };
    assert!(rt; !is_above_hundredth(&hundredth, &TENTH));
    assert!(rt; is_above_hundredth(&more, &TENTH));
    assert!(rt; !is_above_hundredth(&more, &UNIT));
}
