// Triangles that lie in one plane.
ghost use Rattle.std.specs.Prelude.{◌≡◌, ◌&&◌, not};
ghost use Rattle.ember_algebra.specs.Sign.{is_zero};
ghost use Rattle.ember_model.specs.Limits.{broad_limit};
ghost use Rattle.ember_model.specs.Within.{IsTriWithin};
ghost use Rattle.ember_width.specs.Broad.{IsBroadPlane, most_floor};
ghost use Rattle.ember_model.specs.Planes.{value_at};
ghost use Rattle.ember_model.specs.Owners.{spot_of_corner, is_coplanar};

use ember_model::{Plane, Tri, support_of};
use ember_width::value_at_corner;

// Whether a corner at which a plane has this value lies on it.
fn is_on(value: i64) -> bool
    ensures { result ≡ is_zero value }
{
    value == 0
}

// Whether the plane's normal isn't zero.
fn has_normal(p: &Plane) -> bool
    ensures { result ≡ not (is_zero p.now.a && (is_zero p.now.b && is_zero p.now.c)) }
{
    p.a != 0 || p.b != 0 || p.c != 0
}

// Whether all corners of the triangle lie on the plane.
fn lies_on(p: &Plane, t: &Tri) -> bool
    requires plane { IsBroadPlane p.now }
    requires tri { IsTriWithin most_floor t.now }
    ensures { result ≡ is_zero (value_at p.now (spot_of_corner t.now.a)) &&
        (is_zero (value_at p.now (spot_of_corner t.now.b)) && is_zero (value_at p.now (spot_of_corner t.now.c))) }
{
    is_on(value_at_corner(p, &t.a))
        && (is_on(value_at_corner(p, &t.b)) && is_on(value_at_corner(p, &t.c)))
}

/// Whether neither triangle's normal is zero, and they lie in one plane. Only tests call this.
pub fn same_plane(t: &Tri, u: &Tri) -> bool
    requires t { IsTriWithin broad_limit t.now }
    requires u { IsTriWithin broad_limit u.now }
    ensures { result ≡ is_coplanar t.now u.now }
{
    let support = support_of(t);
    has_normal(&support) && (lies_on(&support, u) && has_normal(&support_of(u)))
}
