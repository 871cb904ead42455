// The truth of a tree at the winding numbers of all meshes.
ghost use Rattle.std.specs.Prelude.{◌≡◌, ◌≤◌, pos, ◌*ℤ◌};
ghost use Rattle.ember_expr.specs.Limits.{most_number, product_limit, winding_limit};
ghost use Rattle.ember_algebra.specs.Size.{Small};
ghost use Rattle.ember_expr.specs.Formula.{formula_of, IsFit, IsFitSum, IsFitTerm, IsMeshNumber};
ghost use Rattle.ember_expr.specs.Truth.{AreCounts, count_of, unsigned_value_of, signed, term_value, sum_of, holds_between, truth};

use crate::trees::{Rel, Term, Tree};
use ember_model::Vector;

// The winding number of a mesh.
fn count(mesh: u32, v: &Vector) -> i64
    requires mesh { IsMeshNumber 64 mesh }
    requires counts { AreCounts v.now.counts }
    ensures value { result ≡ count_of v.now.counts mesh }
    ensures small { Small winding_limit result }
{
    i64::from(v.counts[mesh as usize - 1])
}

// The product of a factor and a winding number.
fn product(factor: u32, count: i64) -> i64
    requires factor { factor ≤ most_number }
    requires count { Small winding_limit count }
    ensures value { result ≡ pos factor *ℤ count }
    ensures small { Small product_limit result }
{
    i64::from(factor) * count
}

// The factor times the winding number, or the factor alone for a plain number: the value of the
// term before its sign is applied. It may be negative.
fn unsigned_value(term: &Term, v: &Vector) -> i64
    requires fit { IsFitTerm 64 term.now }
    requires counts { AreCounts v.now.counts }
    ensures value { result ≡ unsigned_value_of v.now.counts term.now }
    ensures small { Small product_limit result }
{
    if term.mesh == 0 {
        return product(term.factor, 1);
    }
    product(term.factor, count(term.mesh, v))
}

// The number, negated if `minus` holds.
fn signed(minus: bool, number: i64) -> i64
    requires { Small product_limit number }
    ensures value { result ≡ signed minus number }
    ensures small { Small product_limit result }
{
    if minus { -number } else { number }
}

// The value of a term at these winding numbers.
fn term_value(term: &Term, v: &Vector) -> i64
    requires fit { IsFitTerm 64 term.now }
    requires counts { AreCounts v.now.counts }
    ensures value { result ≡ term_value v.now.counts term.now }
    ensures small { Small product_limit result }
{
    signed(term.minus, unsigned_value(term, v))
}

// The value of a sum at these winding numbers.
fn sum_value(terms: &[Term], v: &Vector) -> i64
    requires fit { IsFitSum 64 terms.now }
    requires counts { AreCounts v.now.counts }
    ensures { result ≡ sum_of v.now.counts terms.now }
{
    let mut sum = 0;
    for term in terms {
        sum += term_value(term, v);
    }
    sum
}

// Whether the relation holds between the two numbers.
fn holds_between(rel: Rel, x: i64, y: i64) -> bool
    ensures { result ≡ holds_between rel x y }
{
    match rel {
        Rel::Less => x < y,
        Rel::LessEqual => x <= y,
        Rel::Equal => x == y,
        Rel::NotEqual => x != y,
        Rel::GreaterEqual => x >= y,
        Rel::Greater => x > y,
    }
}

/// Whether the tree holds at these winding numbers, each of which is at most 2^24 in size.
pub fn truth_of(tree: &Tree, v: &Vector) -> bool
    requires fit { IsFit 64 (formula_of tree.now) }
    requires counts { AreCounts v.now.counts }
    ensures { result ≡ truth v.now.counts (formula_of tree.now) }
{
    match tree {
        Tree::Or(a, b) => truth_of(a, v) || truth_of(b, v),
        Tree::Xor(a, b) => {
            if truth_of(a, v) {
                !truth_of(b, v)
            } else {
                truth_of(b, v)
            }
        }
        Tree::And(a, b) => truth_of(a, v) && truth_of(b, v),
        Tree::Not(a) => !truth_of(a, v),
        Tree::Mesh(mesh) => count(*mesh, v) >= 1,
        Tree::Odd(sum) => sum_value(sum.items(), v) % 2 != 0,
        Tree::Compare(a, rel, b) => {
            holds_between(*rel, sum_value(a.items(), v), sum_value(b.items(), v))
        }
    }
}
