// Points where three planes meet.
use crate::shapes::{is_at, plane};
use ember_algebra::Sign;
use ember_model::{Axis, Plane};
use ember_point::{Meet, meet, reduce, side, slide};
use std::test::Fail;

// Numbers near the largest ones of the planes of a scene.
const SIZE: i64 = 16_760_836;

const AT: i64 = 34_309_431_292;

const FAR_X: Plane = Plane {
    a: SIZE,
    b: 0,
    c: 0,
    d: AT,
};

const FAR_Y: Plane = Plane {
    a: 0,
    b: SIZE,
    c: 0,
    d: AT,
};

const FAR_Z: Plane = Plane {
    a: 0,
    b: 0,
    c: SIZE,
    d: AT,
};

#[test]
fn large_planes_meet_in_the_last_corner(rt: HostRuntime) -> Result<(), Fail> {
    let Some(far) = meet(&FAR_X, &FAR_Y, &FAR_Z) else {
        return Err(Fail::from("no meet"));
    };
    assert!(rt; far.w > 9_223_372_036_854_775_808);
    assert!(rt; is_at(&far, [2047, 2047, 2047, 1]));
    Ok(())
}

#[test]
fn planes_without_one_point_in_common(rt: HostRuntime) {
    let (unit, parallel) = (plane([1, 0, 0, 0]), plane([2, 0, 0, 5]));
    for third in [FAR_X, FAR_Y, FAR_Z] {
        assert!(rt; meet(&unit, &parallel, &third).is_none());
    }
}

static SIDES: [([i16; 4], Sign); 3] = [
    ([1, 1, 1, 2], Sign::Neg),
    ([1, 0, -1, 0], Sign::Zero),
    ([1, 1, 1, 0], Sign::Pos),
];

#[test]
fn sides_of_a_meet(rt: HostRuntime) -> Result<(), Fail> {
    let Some(m) = meet(
        &plane([1, 1, 1, 1]),
        &plane([1, -1, 0, 0]),
        &plane([0, 1, -1, 0]),
    ) else {
        return Err(Fail::from("no meet"));
    };
    assert!(rt; [m.x, m.y, m.z, m.w] == [1, 1, 1, 3]);
    for &(numbers, want) in &SIDES {
        assert!(rt; side(&plane(numbers), &m) == want);
    }
    Ok(())
}

#[test]
fn a_slid_plane_and_lowest_terms(rt: HostRuntime) {
    let diagonal = Plane {
        a: 1,
        b: 1,
        c: 1,
        d: 1,
    };
    assert!(rt; slide(&diagonal, Axis::X, 1) == plane([0, 1, 1, 0]));
    let m = reduce(&Meet {
        x: 6,
        y: 0,
        z: -9,
        w: 3,
    });
    assert!(rt; [m.x, m.y, m.z, m.w] == [2, 0, -3, 1]);
}
