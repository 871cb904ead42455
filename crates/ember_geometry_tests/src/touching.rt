// Triangles that may touch, and others that conform.
use crate::shapes::triangle;
use ember_alone::may_touch;

const O: [i32; 3] = [0, 0, 0];

const X: [i32; 3] = [10, 0, 0];

const Y: [i32; 3] = [0, 10, 0];

const Z: [i32; 3] = [0, 0, 10];

const FAR: [i32; 3] = [10, 10, 0];

const BACK: [i32; 3] = [-10, 0, 0];

const BELOW: [i32; 3] = [2, 2, -5];

const ABOVE: [i32; 3] = [2, 2, 5];

const WITHIN: [i32; 3] = [3, 3, 0];

const HALF: [i32; 3] = [5, 0, 0];

static PAIRS: [([[i32; 3]; 3], [[i32; 3]; 3], bool); 15] = [
    // neighbours: at a right angle, and in one plane
    ([O, X, Y], [O, Z, X], false),
    ([O, X, Y], [Y, X, FAR], false),
    // a common corner alone
    ([O, X, Y], [O, BACK, [-3, -3, 10]], false),
    // a common corner, and edges that lead on beyond it
    ([O, X, Y], [O, BACK, [0, -10, 0]], false),
    ([O, X, Y], [O, BACK, Z], false),
    // apart, but not by planes of either
    (
        [BACK, X, [0, -10, -5]],
        [[0, -10, 1], [0, 10, 1], [-10, 0, 6]],
        true,
    ),
    // no common corner, and one above the other
    ([O, X, Y], [Z, ABOVE, [10, 10, 10]], false),
    // a flat triangle
    ([O, X, Y], [O, X, HALF], false),
    // the same triangle, and the same turned over
    ([O, X, Y], [O, X, Y], true),
    ([O, X, Y], [O, Y, X], true),
    // folded onto each other along a common edge
    ([O, X, Y], [O, X, WITHIN], true),
    // crossing, also with a common corner
    ([O, X, Y], [BELOW, ABOVE, FAR], true),
    ([O, X, Y], [O, BELOW, ABOVE], true),
    // a corner inside the other triangle
    ([O, X, Y], [WITHIN, ABOVE, [4, 2, 5]], true),
    // a corner on an edge of the other
    ([O, X, Y], [HALF, [5, -5, 1], [6, -5, 0]], true),
];

#[test]
fn pairs_of_triangles(rt: HostRuntime) {
    for &(one, other, want) in &PAIRS {
        let t = triangle(one);
        let u = triangle(other);
        assert!(rt; may_touch(&t, &u) == want, "{one:?} and {other:?}");
        assert!(rt; may_touch(&u, &t) == want, "{other:?} and {one:?}");
    }
}
