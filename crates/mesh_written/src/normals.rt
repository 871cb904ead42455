// Normals of planes as floats.
ghost use Rattle.std.specs.Prelude.{◌≡◌};
ghost use Rattle.mesh_written.specs.Normals.{quotient, unit_normal, normal_at};

use ember_model::Plane;
use mesh_write::FloatPoint;
use std::num::{f32_to_bits_with_nan, nearest_f64_to_f32_with_nan, nearest_i64_to_f64};

// The bits of the binary32 nearest to the quotient in binary64.
fn quotient(number: f64, length: f64) -> u32
    ensures { result ≡ quotient number length }
{
    f32_to_bits_with_nan(nearest_f64_to_f32_with_nan(number / length))
}

// The plane's normal, divided by its length.
#[tactic(auto, unfolding(crate::specs::Normals::unit_normal))]
fn unit_normal(plane: &Plane) -> FloatPoint
    ensures { result ≡ unit_normal plane.now }
{
    let a = nearest_i64_to_f64(plane.a);
    let b = nearest_i64_to_f64(plane.b);
    let c = nearest_i64_to_f64(plane.c);
    let length = (a * a + b * b + c * c).sqrt();
    FloatPoint {
        x: quotient(a, length),
        y: quotient(b, length),
        z: quotient(c, length),
    }
}

// The normal of the plane with this number, and 0 if there is none.
pub(crate) fn normal_at(planes: &[Plane], number: u32) -> FloatPoint
    ensures { result ≡ normal_at planes.now number }
{
    match planes.get(number as usize) {
        Some(plane) => unit_normal(plane),
        None => FloatPoint { x: 0, y: 0, z: 0 },
    }
}
