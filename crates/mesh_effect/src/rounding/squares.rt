// The greatest of the corners' squares.
ghost use Rattle.std.specs.Prelude.{◌≡◌, ◌+◌, ◌*◌, ◌≤◌, ◌^◌, slice_index};
ghost use Rattle.mesh_effect.specs.Rounding.Maximum.{greatest_of};
ghost use Rattle.mesh_effect.specs.Rounding.Squares.{square, triangle_square};

use mesh_certificate::Triangle;

fn square(n: u128) -> u128
    requires { n ≤ 2 ^ 62 }
    ensures value { result ≡ square n }
    ensures small { result ≤ 2 ^ 124 }
{
    n * n
}

pub(crate) fn sum_of_squares(x: u128, y: u128, z: u128) -> u128
    requires x { x ≤ 2 ^ 62 }
    requires y { y ≤ 2 ^ 62 }
    requires z { z ≤ 2 ^ 62 }
    ensures { result ≡ square x + (square y + square z) }
{
    square(x) + (square(y) + square(z))
}

fn square_at(squares: &[u128], number: u32) -> u128
    ensures { result ≡ slice_index squares.now number }
{
    match squares.get(number as usize) {
        Some(square) => *square,
        None => 0,
    }
}

// The greatest square of the triangle's corners.
fn triangle_square(squares: &[u128], t: &Triangle) -> u128
    ensures { result ≡ triangle_square squares.now t.now }
{
    let first = square_at(squares, t.first.start);
    let second = square_at(squares, t.second.start);
    let third = square_at(squares, t.third.start);
    first.max(second).max(third)
}

// The greatest square of a corner of the triangles.
pub(crate) fn greatest_square(squares: &[u128], triangles: &[Triangle]) -> u128
    ensures { result ≡ greatest_of (triangle_square squares.now) triangles.now }
{
    let mut greatest = 0u128;
    for t in triangles {
        greatest = greatest.max(triangle_square(squares, t));
    }
    greatest
}
