// The three-valued truth of a tree.
ghost use Rattle.std.specs.Prelude.{◌≡◌, ℕ, Bool, ℤ, List, IfSome};
ghost use Rattle.ember_expr.specs.Formula.{formula_of, IsFit, IsFitSum, IsMeshNumber};
ghost use Rattle.ember_expr.specs.Truth.{AreCounts, truth};
ghost use Rattle.ember_known.specs.Masks.{is_in};
ghost use Rattle.ember_known.specs.Known as three_valued;
ghost use Rattle.ember_known.specs.Known.{mentions, truth_unless};
ghost use Rattle.ember_known.specs.Laws.{AgreeOutside};

use crate::Mask;
use ember_expr::{Expr, Term, Tree, tree, truth_of};
use ember_model::Vector;

// Whether a sum mentions an undecided mesh.
fn mentions(terms: &[Term], m: Mask) -> bool
    requires { IsFitSum 64 terms.now }
    ensures { result ≡ mentions (is_in m.0) terms.now }
{
    for term in terms {
        if term.mesh != 0 && m.has(term.mesh) {
            return true;
        }
    }
    false
}

// The truth of the tree at these winding numbers, or None if it mentions an undecided mesh.
fn truth_unless(undecided: bool, tree: &Tree, v: &Vector) -> Option<bool>
    requires fit { IsFit 64 (formula_of tree.now) }
    requires counts { AreCounts v.now.counts }
    ensures { result ≡ truth_unless undecided (truth v.now.counts (formula_of tree.now)) }
{
    if undecided {
        None
    } else {
        Some(truth_of(tree, v))
    }
}

// The three-valued truth of the tree at these winding numbers, if the meshes of `m` are undecided.
fn known_in(tree: &Tree, v: &Vector, m: Mask) -> Option<bool>
    requires fit { IsFit 64 (formula_of tree.now) }
    requires counts { AreCounts v.now.counts }
    ensures { result ≡ three_valued.known (is_in m.0) v.now.counts (formula_of tree.now) }
{
    match tree {
        Tree::Or(a, b) => match known_in(a, v, m) {
            Some(true) => Some(true),
            Some(false) => known_in(b, v, m),
            None => match known_in(b, v, m) {
                Some(true) => Some(true),
                _ => None,
            },
        },
        Tree::And(a, b) => match known_in(a, v, m) {
            Some(false) => Some(false),
            Some(true) => known_in(b, v, m),
            None => match known_in(b, v, m) {
                Some(false) => Some(false),
                _ => None,
            },
        },
        Tree::Xor(a, b) => match (known_in(a, v, m), known_in(b, v, m)) {
            (Some(a), Some(b)) => Some(a != b),
            _ => None,
        },
        Tree::Not(a) => match known_in(a, v, m) {
            Some(a) => Some(!a),
            None => None,
        },
        Tree::Mesh(mesh) => truth_unless(m.has(*mesh), tree, v),
        Tree::Odd(sum) => truth_unless(mentions(sum.items(), m), tree, v),
        Tree::Compare(a, _, b) => {
            truth_unless(mentions(a.items(), m) || mentions(b.items(), m), tree, v)
        }
    }
}

/// The three-valued truth of the expression at these winding numbers, each of which is at most 2^24
/// in size, if the meshes of `m` are undecided. `Some(b)` means that the value is `b` whatever the
/// winding numbers of these meshes are; `None` shows nothing.
pub fn known(e: &Expr, v: &Vector, m: &Mask) -> Option<bool>
    requires { AreCounts v.now.counts }
    ensures value { result ≡ three_valued.known (is_in m.now.0) v.now.counts (formula_of e.now) }
    ensures same { (undecided : ℕ → Bool) → ((n : ℕ) → IsMeshNumber 64 n → is_in m.now.0 n ≡ undecided n) →
        result ≡ three_valued.known undecided v.now.counts (formula_of e.now) }
    ensures law { IfSome result (λ b. (others : List ℤ) → AgreeOutside (is_in m.now.0) v.now.counts others →
        truth others (formula_of e.now) ≡ b) }
{
    known_in(tree(e), v, *m)
}
