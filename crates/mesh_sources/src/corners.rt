// Three points of space.
ghost use Rattle.std.specs.Prelude.{◌≡◌};
ghost use Rattle.ember_model.specs.Valid.{IsValidTri};
ghost use Rattle.mesh_certificate.specs.Certificate.Facing.{spot_of};
ghost use Rattle.mesh_sources.specs.Places.{spots_of, spots_turned};

use ember_model::Tri;
use mesh_point::{SpacePoint, whole_point};

/// Three points, the corners of a triangle.
#[derive(Clone, Copy)]
pub struct Corners {
    pub u: SpacePoint,
    pub v: SpacePoint,
    pub w: SpacePoint,
}

/// The corners of a triangle of the scene, in the opposite order if it is turned.
pub fn corners_of(t: &Tri, is_turned: bool) -> Corners
    requires { IsValidTri t.now }
    ensures { spots_of result ≡ spots_turned is_turned t.now }
{
    let (second, third) = if is_turned {
        (&t.c, &t.b)
    } else {
        (&t.b, &t.c)
    };
    Corners {
        u: whole_point(&t.a),
        v: whole_point(second),
        w: whole_point(third),
    }
}
