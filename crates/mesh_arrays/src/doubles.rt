// Decimals as doubles.
ghost use Rattle.std.specs.Prelude.{◌≡◌, ◌≤◌, IfOk, Some, map};
ghost use Rattle.mesh_arrays.specs.Doubles.{double_of, doubles_of};

use fast_float::parse;
use mesh_number::put_shifted;
use mesh_write::DecimalPoint;
use std::alloc::{AllocError, Global};

/// The double (an IEEE 754 float of 64 bits) that is nearest to so many units of the last of these decimal
/// places; of two, the one with the even significand. There are at most 17 places. It is the one that reading
/// the decimal's text gives, which is made in `text`, in place of what that held.
pub fn double_at(units: i128, places: u32, text: &mut Vec<u8>) -> Result<f64, AllocError>
    requires { places ≤ 17 }
    ensures { IfOk result (λ double. double_of places units ≡ Some double) }
{
    text.clear();
    put_shifted(units < 0, units.unsigned_abs(), places, text)?;
    match parse::<f64, _>(text.as_slice()) {
        Ok(double) => Ok(double),
        Err(_) => unreachable!(),
    }
}

// The coordinates of a point as doubles.
fn double_point(
    point: &DecimalPoint,
    places: u32,
    text: &mut Vec<u8>,
) -> Result<[f64; 3], AllocError>
    requires { places ≤ 17 }
    ensures { IfOk result (λ doubles. map Some doubles ≡ doubles_of places point.now) }
{
    let x = double_at(point.x, places, text)?;
    let y = double_at(point.y, places, text)?;
    let z = double_at(point.z, places, text)?;
    Ok([x, y, z])
}

/// The coordinates of each point as doubles: see [`double_at`]. Points that differ may have equal doubles, if
/// they need more than 53 bits.
pub fn double_points(
    alloc: Global,
    points: &[DecimalPoint],
    places: u32,
) -> Result<Vec<[f64; 3]>, AllocError>
    requires { places ≤ 17 }
    ensures { IfOk result (λ found. map (map Some) found.items ≡ map (doubles_of places) points.now) }
{
    let mut text = Vec::new(alloc);
    let mut found = Vec::with_capacity(alloc, points.len())?;
    for point in points {
        found.push(double_point(point, places, &mut text)?)?;
    }
    Ok(found)
}
