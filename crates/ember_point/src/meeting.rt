// The meet of three planes.
ghost use Rattle.std.specs.Prelude.{◌≡◌, ◌+ℤ◌, ◌-ℤ◌, ◌*ℤ◌, ℤ, pos, neg_ℤ, if◌then◌else◌, IfSome, IsNone, ◌↔◌};
ghost use Rattle.ember_model.specs.Limits.{direction_limit, meet_limit, meet_weight_limit, valid_constant_limit, valid_normal_limit};
ghost use Rattle.ember_algebra.specs.Size.{Small};
ghost use Rattle.ember_algebra.specs.Vector.{cross, dot};
ghost use Rattle.ember_model.specs.Valid.{IsValidPlane};
ghost use Rattle.ember_model.specs.Planes.{value_at};
ghost use Rattle.ember_model.specs.Edges.{normal};
ghost use Rattle.ember_point.specs.Points.{spot_of, weight, meet_of, cross_of};

use crate::cross::Cross;
use crate::meet_point::Meet;
use ember_model::Plane;

// The determinant `a d - b c` of entries of normals. 2251799679467522 is 2 * 33554431^2.
fn minor(a: i64, b: i64, c: i64, d: i64) -> i64
    requires small_a { Small valid_normal_limit a }
    requires small_b { Small valid_normal_limit b }
    requires small_c { Small valid_normal_limit c }
    requires small_d { Small valid_normal_limit d }
    ensures value { result ≡ a *ℤ d -ℤ b *ℤ c }
    ensures small { Small direction_limit result }
{
    a * d - b * c
}

// The cross product of the planes' normals.
fn cross_normals(p: &Plane, q: &Plane) -> Cross
    requires valid_p { IsValidPlane p.now }
    requires valid_q { IsValidPlane q.now }
    ensures { cross_of result ≡ cross (normal p.now) (normal q.now) }
{
    Cross {
        x: minor(p.b, p.c, q.b, q.c),
        y: minor(p.c, p.a, q.c, q.a),
        z: minor(p.a, p.b, q.a, q.b),
    }
}

// The dot product of the plane's normal and a cross product of normals. The bound is 2^78 - 1.
fn product(p: &Plane, cross: &Cross) -> i128
    requires { IsValidPlane p.now }
    ensures value { result ≡ dot (normal p.now) (cross_of cross.now) }
    ensures small { Small meet_weight_limit result }
{
    p.a as i128 * cross.x as i128 + p.b as i128 * cross.y as i128 + p.c as i128 * cross.z as i128
}

// The sum `a x + b y + c z` of constants of planes times entries of cross products. The bounds are
// 2^39 - 1, 2 * 33554431^2, and 2^92 - 1 for the sum.
fn combination(a: i64, x: i64, b: i64, y: i64, c: i64, z: i64) -> i128
    requires small_a { Small valid_constant_limit a }
    requires small_b { Small valid_constant_limit b }
    requires small_c { Small valid_constant_limit c }
    requires small_x { Small direction_limit x }
    requires small_y { Small direction_limit y }
    requires small_z { Small direction_limit z }
    ensures value { result ≡ a *ℤ x +ℤ b *ℤ y +ℤ c *ℤ z }
    ensures small { Small meet_limit result }
{
    a as i128 * x as i128 + b as i128 * y as i128 + c as i128 * z as i128
}

/// The one point of three planes, or `None` if there is none or more than one.
pub fn meet(p: &Plane, q: &Plane, r: &Plane) -> Option<Meet>
    requires valid_p { IsValidPlane p.now }
    requires valid_q { IsValidPlane q.now }
    requires valid_r { IsValidPlane r.now }
    ensures none { IsNone result ↔ (weight p.now q.now r.now ≡ pos 0) }
    ensures formula { IfSome result (λ m. spot_of m ≡ meet_of p.now q.now r.now) }
    ensures on_first { IfSome result (λ m. value_at p.now (spot_of m) ≡ pos 0) }
    ensures on_second { IfSome result (λ m. value_at q.now (spot_of m) ≡ pos 0) }
    ensures on_third { IfSome result (λ m. value_at r.now (spot_of m) ≡ pos 0) }
{
    let u = cross_normals(q, r);
    let v = cross_normals(r, p);
    let t = cross_normals(p, q);
    let w = product(p, &u);
    let x = combination(p.d, u.x, q.d, v.x, r.d, t.x);
    let y = combination(p.d, u.y, q.d, v.y, r.d, t.y);
    let z = combination(p.d, u.z, q.d, v.z, r.d, t.z);
    if w == 0 {
        None
    } else if w < 0 {
        Some(Meet {
            x: -x,
            y: -y,
            z: -z,
            w: -w,
        })
    } else {
        Some(Meet { x, y, z, w })
    }
}
