// The volume inside triangles, in floats of 64 bits.
ghost use Rattle.std.specs.Prelude.{◌≡◌};
ghost use Rattle.mesh_info.specs.Info.Volume.{distance, offset_of, sixfold_volume, volume_of};

use crate::info::corners::point_at;
use mesh_write::{DecimalPoint, IndexedTriangle};
use std::num::nearest_u64_to_f64;

const NOTHING: f64 = 0.0;

const SIX: f64 = 6.0;

// 10^12 and 2^64.
const TRILLION: f64 = 1_000_000_000_000.0;

const HIGH_PLACE: f64 = 18_446_744_073_709_551_616.0;

// Where a point lies from the lower corner of the bounding box, in the unit.
#[derive(Clone, Copy)]
struct Position {
    x: f64,
    y: f64,
    z: f64,
}

// How far apart two numbers of trillionths are, in the unit.
#[tactic(auto, unfolding(crate::specs::Info::Volume::in_unit))]
fn distance(from: i128, to: i128) -> f64
    ensures { result ≡ distance from to }
{
    let size = to.abs_diff(from);
    let high = nearest_u64_to_f64((size / (1 << 64)) as u64);
    let low = nearest_u64_to_f64((size % (1 << 64)) as u64);
    (high * HIGH_PLACE + low) / TRILLION
}

fn offset_of(lower: &DecimalPoint, point: &DecimalPoint) -> Position
    ensures { result ≡ offset_of lower.now point.now }
{
    Position {
        x: distance(lower.x, point.x),
        y: distance(lower.y, point.y),
        z: distance(lower.z, point.z),
    }
}

// Six times the volume between a triangle and the lower corner.
#[tactic(auto, unfolding(crate::specs::Info::Volume::sixfold_volume))]
fn sixfold_volume(a: &Position, b: &Position, c: &Position) -> f64
    ensures { result ≡ sixfold_volume a.now b.now c.now }
{
    let x = a.x * (b.y * c.z - b.z * c.y);
    let y = a.y * (b.z * c.x - b.x * c.z);
    let z = a.z * (b.x * c.y - b.y * c.x);
    x + y + z
}

// The volume inside triangles over points, whose bounding box has this lower corner.
#[tactic(auto, unfolding(crate::specs::Info::Volume::volume_of))]
pub(crate) fn volume_of(
    lower: &DecimalPoint,
    points: &[DecimalPoint],
    triangles: &[IndexedTriangle],
) -> f64
    ensures { result ≡ volume_of lower.now points.now triangles.now }
{
    let mut total = NOTHING;
    for t in triangles {
        let a = offset_of(lower, &point_at(points, t.a));
        let b = offset_of(lower, &point_at(points, t.b));
        let c = offset_of(lower, &point_at(points, t.c));
        total = total + sixfold_volume(&a, &b, &c);
    }
    total / SIX
}
