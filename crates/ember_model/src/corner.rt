// Whether two corners are equal.
ghost use Rattle.std.specs.Prelude.{◌≡◌, ◌-ℤ◌};
ghost use Rattle.ember_algebra.specs.Sign.{is_zero};
ghost use Rattle.ember_model.specs.Meshes.{same_corner};

use crate::point::Corner;

/// Whether two corners are equal.
pub fn is_same_corner(u: &Corner, v: &Corner) -> bool
    ensures { result ≡ same_corner u.now v.now }
{
    is_same(u.x, v.x) && (is_same(u.y, v.y) && is_same(u.z, v.z))
}

// Whether two numbers are equal.
fn is_same(a: i32, b: i32) -> bool
    ensures { result ≡ is_zero (a -ℤ b) }
{
    a == b
}
