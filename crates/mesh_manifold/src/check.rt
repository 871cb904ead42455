// Whether each edge has two triangles.
ghost use Rattle.std.specs.Prelude.{◌≡◌};
ghost use Rattle.mesh_manifold.specs.Paired.{is_pair, is_earlier, is_earlier_than_all, is_first_pair, is_paired};

use crate::edges::HalfEdge;

// Whether the two edges lead forward and back between the same vertices.
fn is_pair(one: &HalfEdge, other: &HalfEdge) -> bool
    ensures { result ≡ is_pair one.now other.now }
{
    one.low == other.low && (one.high == other.high && (!one.is_back && other.is_back))
}

// Whether the vertices of one edge come before those of the other.
fn is_earlier(one: &HalfEdge, other: &HalfEdge) -> bool
    ensures { result ≡ is_earlier one.now other.now }
{
    one.low < other.low || (one.low == other.low && one.high < other.high)
}

// Whether the first of the edges, if there is one, is later.
fn is_earlier_than_all(edge: &HalfEdge, edges: &[HalfEdge]) -> bool
    ensures { result ≡ is_earlier_than_all edge.now edges.now }
{
    match edges.split_first() {
        Some((first, _)) => is_earlier(edge, first),
        None => true,
    }
}

// Whether two edges are a pair, and the edges behind them are between later vertices.
fn is_first_pair(one: &HalfEdge, other: &HalfEdge, others: &[HalfEdge]) -> bool
    ensures { result ≡ is_first_pair one.now other.now others.now }
{
    is_pair(one, other) && is_earlier_than_all(one, others)
}

/// Whether sorted edges are pairs of one that leads forward and one that leads back, each pair
/// between other vertices.
pub fn is_paired(edges: &[HalfEdge]) -> bool
    ensures { result ≡ is_paired edges.now }
{
    let mut rest = edges;
    while let Some((one, behind)) = rest.split_first() {
        let Some((other, others)) = behind.split_first() else {
            return false;
        };
        if !is_first_pair(one, other, others) {
            return false;
        }
        rest = others;
    }
    true
}
