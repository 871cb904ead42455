// Keys of planes and of lines; the expected ones are from a program in another language.
ghost use Rattle.ember_algebra.specs.Size.{Small};
ghost use Rattle.ember_width.specs.Broad.{IsBroadPlane, most_constant, most_normal};

use ember_model::Plane;
use mesh_certificate::{LineKey, line_key, plane_key};
use std::test::Fail;

// The number, or 0 in place of one that no normal has.
fn entry(x: i64) -> i64
    ensures { Small most_normal result }
{
    if x > 1099511627775 || x < -1099511627775 {
        0
    } else {
        x
    }
}

// The number, or 0 in place of one that no constant is.
fn constant(x: i64) -> i64
    ensures { Small most_constant result }
{
    if x > 4611686018427387903 || x < -4611686018427387903 {
        0
    } else {
        x
    }
}

fn plane(numbers: [i64; 4]) -> Plane
    ensures { IsBroadPlane result }
{
    Plane {
        a: entry(numbers[0]),
        b: entry(numbers[1]),
        c: entry(numbers[2]),
        d: constant(numbers[3]),
    }
}

static KEYS_OF_PLANES: [([i64; 4], [i64; 4]); 8] = [
    ([2, 4, 6, 8], [1, 2, 3, 4]),
    ([-2, -4, -6, -8], [-1, -2, -3, -4]),
    ([6, 0, 0, 9], [2, 0, 0, 3]),
    ([0, 0, -7, 0], [0, 0, -1, 0]),
    ([33554430, 0, 0, 549755813886], [5592405, 0, 0, 91625968981]),
    (
        [33554431, 0, 0, 549755813887],
        [33554431, 0, 0, 549755813887],
    ),
    ([0, 0, 0, 0], [0, 0, 0, 0]),
    (
        [1099511627774, 0, 0, 4611686018427387902],
        [549755813887, 0, 0, 2305843009213693951],
    ),
];

#[test]
fn keys_of_planes(rt: HostRuntime) {
    for &(numbers, want) in &KEYS_OF_PLANES {
        assert!(rt; plane_key(&plane(numbers)) == plane(want));
    }
}

static KEYS_OF_LINES: [([i64; 4], [i64; 4], [i128; 3], [i128; 3]); 9] = [
    ([1, 0, 0, 0], [0, 1, 0, 0], [0, 0, 1], [0, 0, 0]),
    ([0, 1, 0, 0], [1, 0, 0, 0], [0, 0, 1], [0, 0, 0]),
    ([2, 0, 0, 4], [0, 3, 0, 9], [0, 0, 1], [3, -2, 0]),
    ([0, -3, 0, -9], [2, 0, 0, 4], [0, 0, 1], [3, -2, 0]),
    ([1, 1, 1, 1], [1, -1, 0, 0], [1, 1, -2], [-1, 1, 0]),
    ([0, 2, 4, 6], [3, 0, 0, 3], [0, 2, -1], [-3, 1, 2]),
    (
        [33554431, 33554430, 0, 549755813887],
        [-33554431, 33554431, 33554431, -549755813887],
        [1125899806179330, -1125899839733761, 2251799645913091],
        [0, -36893486498084552707, -18446743523920183297],
    ),
    (
        [1099511627775, 1099511627774, 0, 4611686018427387902],
        [
            -1099511627775,
            1099511627775,
            1099511627773,
            -4611686018427387901,
        ],
        [
            1208925819609131616567302,
            -1208925819610231128195075,
            2417851639223760791273475,
        ],
        [
            1099511627775,
            -10141204801812000148420785340424,
            -5070602400899082545732507402246,
        ],
    ),
    (
        [1099511627774, 0, 1099511627772, 0],
        [0, 1099511627766, 1099511627774, 4611686018427387900],
        [
            302231454899809002979338,
            302231454902557782048769,
            -302231454900358758793221,
        ],
        [
            -1267650600225923557387977883650,
            0,
            -1267650600223617714378764189700,
        ],
    ),
];

#[test]
fn keys_of_lines(rt: HostRuntime) -> Result<(), Fail> {
    for &(first, second, direction, moment) in &KEYS_OF_LINES {
        let Some(key) = line_key(&plane(first), &plane(second)) else {
            return Err(Fail::from("no line"));
        };
        let want = LineKey {
            dx: direction[0],
            dy: direction[1],
            dz: direction[2],
            mx: moment[0],
            my: moment[1],
            mz: moment[2],
        };
        assert!(rt; key == want);
    }
    Ok(())
}

#[test]
fn parallel_planes_have_no_line(rt: HostRuntime) {
    assert!(rt; line_key(&plane([1, 2, 3, 4]), &plane([-2, -4, -6, 5])).is_none());
    assert!(rt; line_key(&plane([1, 2, 3, 4]), &plane([0, 0, 0, 1])).is_none());
}
