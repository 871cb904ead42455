// The expression of the command line. `after_x` is a step of the verdict (specs/Verdict.antt).
ghost use Rattle.std.specs.Prelude.{◌≤◌, IfOk, IfErr, codes};
ghost use Rattle.ember_expr.specs.Formula.{formula_of};
ghost use Rattle.ember_verdict.specs.OptionalExpr.{given_formula};
ghost use Rattle.ember_verdict.specs.NoReplies.{IsNoExpression};
ghost use Rattle.ember_verdict.specs.Verdict.{PassesOn, after_expr, after_given, after_bounded_expr};

use crate::status::Status;
use ember_expr::{Expr, ExprFault, bounded, parse};
use ember_words::Text;
use std::alloc::Global;

/// Parses the text as an expression over `meshes` meshes, at most 64. The error is the status: the
/// text's first fault, or out-of-memory.
#[tactic(auto, using(crate::proofs::Expressions::fault_is_no_reply, crate::proofs::NoReplies::memory_is_no_reply_to_expression))]
pub fn parse_text(alloc: Global, text: &Text, meshes: u32) -> Result<Expr, Status>
    requires { meshes ≤ 64 }
    ensures expr { IfOk result (λ expr. PassesOn (after_expr text.now meshes) (formula_of expr)) }
    ensures no_reply { IfErr result (IsNoExpression (after_expr text.now meshes)) }
{
    match parse(alloc, text.as_str().as_bytes(), meshes) {
        Ok(expr) => Ok(expr),
        Err(ExprFault::OutOfMemory) => Err(Status::OutOfMemory),
        Err(fault) => Err(Status::ExprRefused(fault)),
    }
}

/// Parses the text, if one is given, as an expression over `meshes` meshes, at most 64. The errors
/// are those of `parse_text`.
pub fn parse_given(alloc: Global, text: &Option<Text>, meshes: u32) -> Result<Option<Expr>, Status>
    requires { meshes ≤ 64 }
    ensures expr { IfOk result (λ expr. PassesOn (after_given text.now meshes) (given_formula expr)) }
    ensures no_reply { IfErr result (IsNoExpression (after_given text.now meshes)) }
{
    match text {
        Some(text) => Ok(Some(parse_text(alloc, text, meshes)?)),
        None => Ok(None),
    }
}

/// Parses the text as an expression over `meshes` meshes, at most 64, and refuses an expression
/// that is true outside all meshes (`Status::Unbounded`). The other errors are those of
/// `parse_text`.
#[tactic(auto, using(crate::proofs::SolidVerdicts::bounded_read, crate::proofs::SolidVerdicts::unbounded_is_no_reply))]
pub fn parse_bounded(alloc: Global, text: &Text, meshes: u32) -> Result<Expr, Status>
    requires { meshes ≤ 64 }
    ensures expr { IfOk result (λ expr. PassesOn (after_bounded_expr text.now meshes) (formula_of expr)) }
    ensures no_reply { IfErr result (IsNoExpression (after_bounded_expr text.now meshes)) }
{
    let expr = match parse_text(alloc, text, meshes) {
        Ok(expr) => expr,
        Err(status) => return Err(status),
    };
    if !bounded(&expr) {
        return Err(Status::Unbounded);
    }
    Ok(expr)
}

/// The expression `m1|m2` of `demo`, over two meshes.
#[tactic(auto, using(crate::proofs::Expressions::fault_is_no_reply, crate::proofs::NoReplies::memory_is_no_reply_to_expression))]
pub fn parse_union(alloc: Global) -> Result<Expr, Status>
    ensures expr { IfOk result (λ expr. PassesOn (after_expr (codes "m1|m2") 2) (formula_of expr)) }
    ensures no_reply { IfErr result (IsNoExpression (after_expr (codes "m1|m2") 2)) }
{
    match parse(alloc, b"m1|m2", 2) {
        Ok(expr) => Ok(expr),
        Err(ExprFault::OutOfMemory) => Err(Status::OutOfMemory),
        Err(fault) => Err(Status::ExprRefused(fault)),
    }
}
