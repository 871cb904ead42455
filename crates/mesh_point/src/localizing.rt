// Three points from their least floors on.
ghost use Rattle.std.specs.Prelude.{◌≤ℤ◌};
ghost use Rattle.mesh_point.specs.Triples.{IsFrom};
ghost use Rattle.mesh_point.specs.Numbers.{local_triple};
ghost use Rattle.mesh_point.specs.Turns.{numbers_of};

use crate::local_point::LocalPoint;
use crate::plane_point::PlanePoint;

/// The least of three floors.
pub fn least(a: i32, b: i32, c: i32) -> i32
    ensures below_a { result ≤ℤ a }
    ensures below_b { result ≤ℤ b }
    ensures below_c { result ≤ℤ c }
{
    a.min(b).min(c)
}

/// The point from the floors `i` and `j` on, which aren't above its own.
pub fn local_point(p: &PlanePoint, i: i32, j: i32) -> LocalPoint
    requires below_x { i ≤ℤ p.now.floor_x }
    requires below_y { j ≤ℤ p.now.floor_y }
    ensures { IsFrom i j (numbers_of p.now) (local_triple result) }
{
    LocalPoint {
        right: p.floor_x.abs_diff(i),
        up: p.floor_y.abs_diff(j),
        x: p.x.unsigned_abs(),
        y: p.y.unsigned_abs(),
        w: p.w.unsigned_abs(),
    }
}
