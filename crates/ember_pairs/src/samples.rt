// Sample points of triangles: inside points with small weights at the corners.
ghost use Rattle.std.specs.Prelude.{◌≡◌, ◌||◌, All, IsTrue};
ghost use Rattle.ember_pairs.specs.Heights.{AreSmall};
ghost use Rattle.ember_pairs.specs.Samples.{AreWeights, sample_height, is_sample_within, HasSampleWithin};

use ember_width::Heights;

/// The weights of a triangle's corners at a sample point.
#[derive(Clone, Copy)]
pub struct Weights {
    pub a: i64,
    pub b: i64,
    pub c: i64,
}

// The sample points that are tested, those first that show the most: the middle of a triangle, then
// points near its corners, and points near the middles of its edges.
const SAMPLES: [Weights; 13] = [
    Weights { a: 1, b: 1, c: 1 },
    Weights { a: 256, b: 1, c: 1 },
    Weights { a: 1, b: 256, c: 1 },
    Weights { a: 1, b: 1, c: 256 },
    Weights { a: 4, b: 1, c: 1 },
    Weights { a: 1, b: 4, c: 1 },
    Weights { a: 1, b: 1, c: 4 },
    Weights { a: 16, b: 1, c: 1 },
    Weights { a: 1, b: 16, c: 1 },
    Weights { a: 1, b: 1, c: 16 },
    Weights { a: 1, b: 8, c: 8 },
    Weights { a: 8, b: 1, c: 8 },
    Weights { a: 8, b: 8, c: 1 },
];

// The height of a triangle's sample point over a plane.
#[tactic(none)]
fn sample_height(h: &Heights, w: &Weights) -> i64
    requires heights { AreSmall h.now }
    requires weights { AreWeights w.now }
    ensures { result ≡ sample_height h.now w.now }
{
    w.a * h.a + w.b * h.b + w.c * h.c
}

// Whether the sample point is above none of several planes, by the triangle's heights over them.
fn is_sample_within(heights: &[Heights], w: &Weights) -> bool
    requires heights { All AreSmall heights.now }
    requires weights { AreWeights w.now }
    ensures { result ≡ is_sample_within heights.now w.now }
{
    for h in heights {
        if sample_height(h, w) > 0 {
            return false;
        }
    }
    true
}

// Whether for some of these weights the sample point of one of two triangles is within the edges of
// the other, by the heights of each over the edge planes of the other.
fn has_sample_of(samples: &[Weights], theirs: &[Heights], own: &[Heights]) -> bool
    requires samples { All AreWeights samples.now }
    requires theirs { All AreSmall theirs.now }
    requires own { All AreSmall own.now }
    ensures { IsTrue result → HasSampleWithin theirs.now own.now }
{
    for w in samples {
        if is_sample_within(theirs, w) || is_sample_within(own, w) {
            return true;
        }
    }
    false
}

/// `true` only if a sample point of one of two triangles is within the edges of the other, by the
/// heights of each over the edge planes of the other. `false` shows nothing.
pub fn has_sample_within(theirs: &[Heights], own: &[Heights]) -> bool
    requires theirs { All AreSmall theirs.now }
    requires own { All AreSmall own.now }
    ensures { IsTrue result → HasSampleWithin theirs.now own.now }
{
    has_sample_of(&SAMPLES, theirs, own)
}
