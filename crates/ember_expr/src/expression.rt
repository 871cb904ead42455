// Expressions: a tree within the limits.
ghost use Rattle.std.specs.Prelude.{◌≡◌, ◌≤◌, ◌⊎◌, pos, not, replicate, Ok, Err, IfOk, IfErr};
ghost use Rattle.ember_expr.specs.Formula.{formula_of, IsFit};
ghost use Rattle.ember_expr.specs.Truth.{AreCounts, truth};
ghost use Rattle.ember_expr.specs.Grammar.{expr_of};
ghost use Rattle.ember_expr.specs.declared.fault.ExprFault.TheVariants.{OutOfMemory};

use crate::fault::ExprFault;
use crate::grammar::{Scope, read_tree};
use crate::token::tokens;
use crate::trees::Tree;
use crate::truth::truth_of;
use ember_model::Vector;
use std::alloc::Global;
use std::marker::Model;

// The most bytes of a text.
const MOST_BYTES: usize = 4096;

// The most parentheses and signs `!` inside one another.
const MOST_DEPTH: u32 = 64;

/// An expression, seen as its tree. The mesh numbers in it, but for the 0 of a plain number, are
/// from 1 to 64, every other number is at most 1,000,000, and each sum has at most 4096 terms.
#[derive(Drop)]
pub struct Expr {
    // Contracts see this tree, and mostly its `Formula`, which has no pointers.
    tree: Tree,
}

impl Model for Expr {
    ghost use Rattle.ember_expr.specs.declared.trees.Tree.{Tree};
    ghost use Rattle.ember_expr.specs.contracts.trees.Tree as trees;
    ghost use Rattle.ember_expr.specs.Formula.{formula_of, IsFit};
    ghost use Rattle.std.specs.Coded.{codes};

    ghost Value = { Tree };

    ghost view = { λ e. e.tree };

    ghost invariant = { λ e. IsFit 64 (formula_of e.tree) };

    // for the prover only: how a tree is stored
    ghost coded = { Prim.hlevel (codes, trees.the_row.coded) };
}

/// The expression of a text for this number of meshes, at most 64, or the first fault in it.
pub fn parse(alloc: Global, text: &[u8], meshes: u32) -> Result<Expr, ExprFault>
    requires { meshes ≤ 64 }
    ensures tree { IfOk result (λ e. expr_of text.now meshes ≡ Ok (formula_of e)) }
    ensures fault { IfErr result (λ e. (e ≡ OutOfMemory) ⊎ (expr_of text.now meshes ≡ Err e)) }
    ensures meshes { IfOk result (λ e. IsFit meshes (formula_of e)) }
{
    if text.len() > MOST_BYTES {
        return Err(ExprFault::Long);
    }
    let scope = Scope {
        meshes,
        end: text.len() as u32,
    };
    let tokens = tokens(alloc, text)?;
    let tree = read_tree(alloc, scope, MOST_DEPTH, &tokens)?;
    Ok(Expr { tree })
}

/// Whether the expression holds at these winding numbers, each of which is at most 2^24 in size.
pub fn value(e: &Expr, v: &Vector) -> bool
    requires { AreCounts v.now.counts }
    ensures { result ≡ truth v.now.counts (formula_of e.now) }
{
    truth_of(&e.tree, v)
}

/// The tree of the expression.
pub fn tree(e: &Expr) -> &Tree
    ensures tree { result.now ≡ e.now }
    ensures fit { IsFit 64 (formula_of e.now) }
{
    &e.tree
}

/// Whether the expression is false if all winding numbers are 0.
#[tactic(none)]
pub fn bounded(e: &Expr) -> bool
    ensures { result ≡ not (truth (replicate 64 (pos 0)) (formula_of e.now)) }
{
    !value(e, &Vector { counts: [0; 64] })
}
