// The meet of three planes of the broad grid.
ghost use Rattle.std.specs.Prelude.{◌≡◌, ◌+ℤ◌, ◌-ℤ◌, ◌*ℤ◌, ℤ, pos, neg_ℤ, IfSome, IsNone, ◌↔◌};
ghost use Rattle.ember_algebra.specs.Size.{Small};
ghost use Rattle.ember_algebra.specs.Sign.{sign};
ghost use Rattle.ember_algebra.specs.Vector.{cross, dot};
ghost use Rattle.ember_model.specs.declared.point.Spot.{Spot};
ghost use Rattle.ember_model.specs.Edges.{normal};
ghost use Rattle.ember_model.specs.Points.{scaled};
ghost use Rattle.ember_point.specs.Points.{weight, meet_of};
ghost use Rattle.ember_wide.specs.Whole.{value_of};
ghost use Rattle.ember_width.specs.Broad.{IsBroadPlane, most_normal, most_constant};
ghost use Rattle.ember_width.specs.Broad.{most_cross, most_weight, most_numerator};
ghost use Rattle.ember_width.specs.BroadPoints.{spot_of, cross_of};

use crate::broad_point::BroadPoint;
use crate::cross::Cross;
use crate::points::point_of;
use ember_model::Plane;
use ember_wide::Wide;

// The determinant `a d - b c` of entries of normals.
fn minor(a: i64, b: i64, c: i64, d: i64) -> i128
    requires small_a { Small most_normal a }
    requires small_b { Small most_normal b }
    requires small_c { Small most_normal c }
    requires small_d { Small most_normal d }
    ensures value { result ≡ a *ℤ d -ℤ b *ℤ c }
    ensures small { Small most_cross result }
{
    a as i128 * d as i128 - b as i128 * c as i128
}

// The cross product of the planes' normals.
fn cross_normals(p: &Plane, q: &Plane) -> Cross
    requires p { IsBroadPlane p.now }
    requires q { IsBroadPlane q.now }
    ensures { cross_of result ≡ cross (normal p.now) (normal q.now) }
{
    Cross {
        x: minor(p.b, p.c, q.b, q.c),
        y: minor(p.c, p.a, q.c, q.a),
        z: minor(p.a, p.b, q.a, q.b),
    }
}

// The dot product of the plane's normal and a cross product of normals.
fn product(p: &Plane, cross: &Cross) -> i128
    requires { IsBroadPlane p.now }
    ensures value { result ≡ dot (normal p.now) (cross_of cross.now) }
    ensures small { Small most_weight result }
{
    p.a as i128 * cross.x + p.b as i128 * cross.y + p.c as i128 * cross.z
}

// The sum `a x + b y + c z` of constants of planes times entries of cross products.
fn combination(a: i64, x: i128, b: i64, y: i128, c: i64, z: i128) -> Wide
    requires small_a { Small most_constant a }
    requires small_b { Small most_constant b }
    requires small_c { Small most_constant c }
    requires small_x { Small most_cross x }
    requires small_y { Small most_cross y }
    requires small_z { Small most_cross z }
    ensures value { value_of result ≡ a *ℤ x +ℤ b *ℤ y +ℤ c *ℤ z }
    ensures small { Small most_numerator (value_of result) }
{
    Wide::product(a as i128, x)
        .plus(&Wide::product(b as i128, y))
        .plus(&Wide::product(c as i128, z))
}

// The number with the other sign.
fn turned(n: &Wide) -> Wide
    ensures { value_of result ≡ neg_ℤ (value_of n.now) }
{
    Wide {
        negative: !n.negative,
        size: n.size,
    }
}

// The point with these numbers, turned if the weight is negative. None if the weight is 0.
fn point_with(x: &Wide, y: &Wide, z: &Wide, w: i128) -> Option<BroadPoint>
    requires x { Small most_numerator (value_of x.now) }
    requires y { Small most_numerator (value_of y.now) }
    requires z { Small most_numerator (value_of z.now) }
    requires w { Small most_weight w }
    ensures none { IsNone result ↔ (w ≡ pos 0) }
    ensures some { (s : Spot)
        → scaled (sign w) (record { x = value_of x.now; y = value_of y.now; z = value_of z.now; w = w }) ≡ s
        → IfSome result (λ m. spot_of m ≡ s) }
{
    if w == 0 {
        None
    } else if w < 0 {
        Some(point_of(&turned(x), &turned(y), &turned(z), -w))
    } else {
        Some(point_of(x, y, z, w))
    }
}

/// The one point of three planes, or `None` if there is none or more than one.
pub fn broad_meet(p: &Plane, q: &Plane, r: &Plane) -> Option<BroadPoint>
    requires p { IsBroadPlane p.now }
    requires q { IsBroadPlane q.now }
    requires r { IsBroadPlane r.now }
    ensures none { IsNone result ↔ (weight p.now q.now r.now ≡ pos 0) }
    ensures formula { IfSome result (λ m. spot_of m ≡ meet_of p.now q.now r.now) }
{
    let u = cross_normals(q, r);
    let v = cross_normals(r, p);
    let t = cross_normals(p, q);
    let x = combination(p.d, u.x, q.d, v.x, r.d, t.x);
    let y = combination(p.d, u.y, q.d, v.y, r.d, t.y);
    let z = combination(p.d, u.z, q.d, v.z, r.d, t.z);
    point_with(&x, &y, &z, product(p, &u))
}
