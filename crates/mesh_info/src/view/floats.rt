// Triangles whose corners are in trillionths of the unit, as floats.
ghost use Rattle.mesh_info.specs.View.Views.{IsFloatOf, IsShownPoint, IsShown};

use mesh_number::{Wide, nearest_binary32};
use mesh_write::{DecimalPoint, DecimalTriangle, FloatPoint, FloatTriangle};

const TRILLION: u128 = 1_000_000_000_000;

// The page doesn't use normals.
const NO_NORMAL: FloatPoint = FloatPoint { x: 0, y: 0, z: 0 };

// The bits of the float nearest to so many trillionths. There always is one, since 2^127 trillionths
// are far below the greatest float.
fn float_of(trillionths: i128) -> u32
    ensures { IsFloatOf trillionths result }
{
    match nearest_binary32(&Wide::product(trillionths, 1), TRILLION) {
        Some(bits) => bits,
        None => unreachable!(),
    }
}

fn shown_point(point: &DecimalPoint) -> FloatPoint
    ensures { IsShownPoint point.now result }
{
    FloatPoint {
        x: float_of(point.x),
        y: float_of(point.y),
        z: float_of(point.z),
    }
}

// The triangle as the page has it.
pub(crate) fn shown(t: &DecimalTriangle) -> FloatTriangle
    ensures { IsShown t.now result }
{
    FloatTriangle {
        normal: NO_NORMAL,
        a: shown_point(&t.a),
        b: shown_point(&t.b),
        c: shown_point(&t.c),
    }
}
