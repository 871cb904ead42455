// The bounding box of points.
ghost use Rattle.std.specs.Prelude.{◌≡◌};
ghost use Rattle.std.specs.Int.{int_min, int_max};
ghost use Rattle.mesh_info.specs.Info.Bounds.{lower_corner, upper_corner, widened, box_from, box_of};

use mesh_write::DecimalPoint;

/// The box along the axes that just holds some points: its lower corner, with the least coordinate
/// along each axis, and its upper one.
#[derive(Clone, Copy, Debug, PartialEq, Eq)]
pub struct BoundingBox {
    pub lower: DecimalPoint,
    pub upper: DecimalPoint,
}

fn lesser(a: i128, b: i128) -> i128
    ensures { result ≡ int_min a b }
{
    if b < a { b } else { a }
}

fn greater(a: i128, b: i128) -> i128
    ensures { result ≡ int_max a b }
{
    if a < b { b } else { a }
}

fn lower_corner(p: &DecimalPoint, q: &DecimalPoint) -> DecimalPoint
    ensures { result ≡ lower_corner p.now q.now }
{
    DecimalPoint {
        x: lesser(p.x, q.x),
        y: lesser(p.y, q.y),
        z: lesser(p.z, q.z),
    }
}

fn upper_corner(p: &DecimalPoint, q: &DecimalPoint) -> DecimalPoint
    ensures { result ≡ upper_corner p.now q.now }
{
    DecimalPoint {
        x: greater(p.x, q.x),
        y: greater(p.y, q.y),
        z: greater(p.z, q.z),
    }
}

fn widened(bounds: &BoundingBox, point: &DecimalPoint) -> BoundingBox
    ensures { result ≡ widened bounds.now point.now }
{
    BoundingBox {
        lower: lower_corner(&bounds.lower, point),
        upper: upper_corner(&bounds.upper, point),
    }
}

// The box of a point and others.
fn box_from(first: DecimalPoint, others: &[DecimalPoint]) -> BoundingBox
    ensures { result ≡ box_from first others.now }
{
    let mut bounds = BoundingBox {
        lower: first,
        upper: first,
    };
    for point in others {
        bounds = widened(&bounds, point);
    }
    bounds
}

// The box of these points.
pub(crate) fn box_of(points: &[DecimalPoint]) -> BoundingBox
    ensures { result ≡ box_of points.now }
{
    match points.split_first() {
        Some((first, others)) => box_from(*first, others),
        None => box_from(DecimalPoint { x: 0, y: 0, z: 0 }, &[]),
    }
}
