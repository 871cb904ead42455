// The middles of edges.
ghost use Rattle.std.specs.Prelude.{◌≡◌, ◌+◌, ◌*◌, ◌^◌, ◌≤◌};
ghost use Rattle.mesh_manifold.specs.Middles.{half, signed, halved, between, middle};

use mesh_write::DecimalPoint;

// The whole number nearest to half of a size; of two, the even one.
fn half(size: u128) -> u128
    ensures value { result ≡ half size }
    ensures size { 2 * result ≤ size + 1 }
{
    if size % 2 == 1 && size / 2 % 2 == 1 {
        size / 2 + 1
    } else {
        size / 2
    }
}

fn signed(negative: bool, size: u128) -> i128
    requires { size ≤ 2 ^ 126 }
    ensures { result ≡ signed negative size }
{
    let positive = size as i128;
    if negative { -positive } else { positive }
}

fn halved(sum: i128) -> i128
    ensures { result ≡ halved sum }
{
    signed(sum < 0, half(sum.unsigned_abs()))
}

// The whole number nearest to the middle of two. A sum that needs more than 128 bits counts as the
// nearest number that doesn't.
fn between(a: i128, b: i128) -> i128
    ensures { result ≡ between a b }
{
    halved(a.saturating_add(b))
}

/// The middle of the edge between two points, with its coordinates rounded.
pub fn middle(u: &DecimalPoint, v: &DecimalPoint) -> DecimalPoint
    ensures { result ≡ middle u.now v.now }
{
    DecimalPoint {
        x: between(u.x, v.x),
        y: between(u.y, v.y),
        z: between(u.z, v.z),
    }
}
