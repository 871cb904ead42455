// The tree of an expression.
ghost use Rattle.std.specs.Prelude.{◌≡◌};

use std::marker::Model;

/// How two sums compare.
#[derive(Clone, Copy, Debug, PartialEq, Eq)]
pub enum Rel {
    Less,
    LessEqual,
    Equal,
    NotEqual,
    GreaterEqual,
    Greater,
}

/// The product of `factor` and the winding number of the mesh, subtracted if `minus` holds.
/// Mesh 0 means a plain number, the factor alone. Meshes are numbered from 1.
#[derive(Clone, Copy, Debug, PartialEq, Eq)]
pub struct Term {
    pub minus: bool,
    pub factor: u32,
    pub mesh: u32,
}

/// A vector of terms, which contracts see as a list: a sum.
#[derive(Drop)]
pub struct Sum {
    terms: Vec<Term>,
}

impl Model for Sum {
    ghost use Rattle.std.specs.Prelude.{List};
    ghost use Rattle.ember_expr.specs.declared.trees.Term.{Term};

    ghost Value = { List Term };

    ghost view = { λ s. s.terms.items };
}

impl Sum {
    /// The sum of these terms.
    pub fn of(terms: Vec<Term>) -> Sum
        ensures { result ≡ terms.items }
    {
        Sum { terms }
    }

    /// The terms in order.
    pub fn items(&self) -> &[Term]
        ensures { result.now ≡ self.now }
    {
        &self.terms
    }

    /// The terms as a vector.
    pub fn into_vec(self) -> Vec<Term>
        ensures { result.items ≡ self }
    {
        self.terms
    }
}

/// The tree of an expression. A chain of one sign groups from the left, and parentheses leave
/// nothing in the tree.
#[derive(Drop)]
pub enum Tree {
    Or(Box<Tree>, Box<Tree>),
    Xor(Box<Tree>, Box<Tree>),
    And(Box<Tree>, Box<Tree>),
    Not(Box<Tree>),
    /// The winding number of this mesh, from 1, is at least 1.
    Mesh(u32),
    /// The sum is odd; a negative sum can be odd, too.
    Odd(Sum),
    Compare(Sum, Rel, Sum),
}
