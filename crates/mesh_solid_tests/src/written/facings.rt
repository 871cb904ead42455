// How rounded triangles face.
ghost use Rattle.std.specs.Prelude.{◌≡◌, true, length};
ghost use Rattle.std.specs.List.{list_all};
ghost use Rattle.ember_model.specs.Valid.{IsValidPlane};
ghost use Rattle.mesh_written.specs.Triangles.{has_corners};

use crate::written::texts::point;
use crate::written::written::{float_point, triangle};
use ember_model::Plane;
use mesh_certificate::Triangle;
use mesh_effect::{Facings, decimal_facings, float_facings};
use mesh_write::{FloatPoint, IndexedTriangle};
use mesh_written::have_corners;

const ONE: u32 = 0x3f80_0000;

const TWO: u32 = 0x4000_0000;

// The least float above 1, and 1e-30.
const ABOVE_ONE: u32 = 0x3f80_0001;

const TINY: u32 = 0x0da2_4260;

const MINUS_TINY: u32 = 0x8da2_4260;

// A plane that is seen from above.
fn level() -> Plane
    ensures { IsValidPlane result }
{
    Plane {
        a: 0,
        b: 0,
        c: 1,
        d: 0,
    }
}

fn facings(without_area: u64, turned_over: u64) -> Facings {
    Facings {
        without_area,
        turned_over,
    }
}

// How triangles of one plane face.
fn level_facings(points: &[FloatPoint], triangles: &[Triangle]) -> Facings
    requires { list_all (has_corners (length points.now)) triangles.now ≡ true }
{
    float_facings(&[level()], points, triangles)
}

// Seen from above: one that keeps facing front, one that is turned over, one on a line, one that
// vanishes, and one whose plane isn't in the table.
#[test]
fn floats_of_each_kind(rt: HostRuntime) {
    let points = [
        float_point(0, 0, 0),
        float_point(ONE, 0, 0),
        float_point(0, ONE, 0),
        float_point(TWO, 0, 0),
        float_point(ONE, 0, 0),
    ];
    let front = triangle(0, 0, 1, 2);
    let back = triangle(0, 0, 2, 1);
    let line = triangle(0, 0, 1, 3);
    let vanished = triangle(0, 0, 1, 4);
    let unknown = triangle(1, 0, 1, 2);
    let rows = [
        ([front, front], facings(0, 0)),
        ([front, back], facings(0, 1)),
        ([back, line], facings(1, 1)),
        ([vanished, line], facings(1, 0)),
        ([vanished, unknown], facings(1, 0)),
    ];
    for (triangles, want) in rows {
        assert!(rt; have_corners(&triangles, points.len()));
        assert!(rt; level_facings(&points, &triangles) == want);
    }
}

// The places of 1 and 1e-30 are 100 apart.
#[test]
fn floats_with_places_far_apart(rt: HostRuntime) {
    let rows: [([FloatPoint; 3], Facings); 3] = [
        (
            [
                float_point(0, 0, 0),
                float_point(ONE, TINY, 0),
                float_point(TWO, TINY, 0),
            ],
            facings(0, 1),
        ),
        (
            [
                float_point(0, 0, 0),
                float_point(ONE, MINUS_TINY, 0),
                float_point(TWO, MINUS_TINY, 0),
            ],
            facings(0, 0),
        ),
        (
            [
                float_point(TINY, TINY, 0),
                float_point(ONE, ONE, 0),
                float_point(ABOVE_ONE, ABOVE_ONE, 0),
            ],
            facings(1, 0),
        ),
    ];
    let triangles = [triangle(0, 0, 1, 2)];
    for (points, want) in rows {
        assert!(rt; have_corners(&triangles, points.len()));
        assert!(rt; level_facings(&points, &triangles) == want);
    }
}

// Two corners 2^100 out, which differ by 1.
#[test]
fn decimals_far_out(rt: HostRuntime) {
    let far = 1i128 << 100;
    let planes = [level()];
    let vertices = [
        point(0, 0, 0),
        point(far, far, 0),
        point(far - 1, far, 0),
        point(-far, -far, 0),
    ];
    let front = IndexedTriangle { a: 0, b: 1, c: 2 };
    let back = IndexedTriangle { a: 0, b: 2, c: 1 };
    let line = IndexedTriangle { a: 3, b: 0, c: 1 };
    let all = [front, back, line, front];
    assert!(rt; decimal_facings(&planes, &[0, 0, 0, 0], &vertices, &all) == facings(1, 1));
    assert!(rt; decimal_facings(&planes, &[0, 0, 0], &vertices, &all) == facings(2, 1));
}
