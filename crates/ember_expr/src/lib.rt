//! Expressions: from their text to a tree, and the tree's truth at the winding numbers of the
//! meshes.
#![tactic(auto)]

mod expression;
mod fault;
mod grammar;
mod law;
mod token;
mod trees;
mod truth;

pub use expression::{Expr, bounded, parse, tree, value};
pub use fault::ExprFault;
pub use law::{
    faults_stand_at_the_first_token_that_has_one, syntax_faults_stand_at_the_first_bad_token,
    texts_have_the_tree_of_the_grammar,
};
pub use trees::{Rel, Sum, Term, Tree};
pub use truth::truth_of;
