// Marks of planes.
ghost use Rattle.std.specs.Prelude.{◌≡◌, ◌^◌};
ghost use Rattle.ember_algebra.specs.Size.{Small};
ghost use Rattle.ember_model.specs.Valid.{IsValidPlane};
ghost use Rattle.mesh_sources.specs.Marks.{mixed, HasMark};

use ember_model::Plane;
use mesh_certificate::plane_key;

// Large factors without pattern, so that few planes of a mesh have one mark. All sums stay below 2^62.
#[tactic(none)]
fn mixed(p: &Plane) -> i64
    requires { IsValidPlane p.now }
    ensures value { result ≡ mixed p.now }
    ensures small { Small (2 ^ 62) result }
{
    29_148_763_391 * p.a + 23_740_125_197 * p.b + 19_999_999_019 * p.c + 1_994_371 * p.d
}

/// A number that is the same for all planes with the same points. Few others have it.
pub fn mark_of(p: &Plane) -> i64
    requires { IsValidPlane p.now }
    ensures { HasMark p.now result }
{
    mixed(&plane_key(p)).abs()
}
