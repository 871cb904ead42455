// What is asked for of meshes in arrays.
ghost use Rattle.std.specs.Prelude.{◌≡◌, ◌≤◌, All, IfErr, IfNone, IfOk, IfSome, None, length};
ghost use Rattle.ember_expr.specs.Formula.{formula_of};
ghost use Rattle.mesh_arrays.specs.Arrays.{IsShort};
ghost use Rattle.mesh_grid.specs.Grid.Grids.{IsChoice};
ghost use Rattle.mesh_run.specs.Asked.{IsExpression, IsExpressionCause, IsStepOfNoGrid, IsWanted};
ghost use Rattle.ember_arrays.specs.Asked.{Asks, IsAskingCause, IsFirstLong, IsLimitCause};

use ember_expr::{Expr, ExprFault, bounded, parse};
use mesh_arrays::ArrayMesh;
use mesh_grid::{Wanted, step_of};
use mesh_refusal::Status;
use mesh_words::{Refusal, WantedStep};
use std::alloc::Global;

// As many meshes as there may be.
const MOST_MESHES: usize = 64;

// As many decimal places as there may be.
const MOST_DIGITS: u32 = 17;

/// A Boolean of meshes in arrays.
#[derive(Clone, Copy)]
pub struct ArrayRequest<'a> {
    pub meshes: &'a [ArrayMesh<'a>],
    /// An expression over the meshes, not yet parsed.
    pub expression: &'a [u8],
    /// The decimal places of the result, up to 17. If there is no number, the step decides.
    pub digits: Option<u32>,
    /// Whether it is asked where each triangle of the result comes from.
    pub wants_sources: bool,
}

// The grid and the expression that are asked for.
#[derive(Drop)]
pub(crate) struct Asked {
    pub(crate) wanted: Wanted,
    pub(crate) expr: Expr,
}

// The step that is asked for, unless no grid has it.
fn wanted_of(step: &WantedStep) -> Option<Wanted>
    ensures wanted { IfSome result (IsWanted step.now) }
    ensures choice { IfSome result IsChoice }
    ensures none { IfNone result (IsStepOfNoGrid step.now) }
{
    match step {
        WantedStep::Nice => Some(Wanted::Nice),
        WantedStep::Finest => Some(Wanted::Finest),
        WantedStep::Decimal(text) => match step_of(text.as_str().as_bytes()) {
            Some(step) => Some(Wanted::Given(step)),
            None => None,
        },
    }
}

// The expression of the text over so many meshes, if it is false outside all of them.
fn bounded_expression(alloc: Global, text: &[u8], meshes: u32) -> Result<Expr, Status>
    requires { meshes ≤ 64 }
    ensures expression { IfOk result (λ expr. IsExpression text.now meshes (formula_of expr)) }
    ensures cause { IfErr result (IsExpressionCause text.now meshes) }
{
    match parse(alloc, text, meshes) {
        Ok(expr) => {
            if bounded(&expr) {
                Ok(expr)
            } else {
                Err(Status::Unbounded)
            }
        }
        Err(ExprFault::OutOfMemory) => Err(Status::OutOfMemory),
        Err(fault) => Err(Status::ExprRefused(fault)),
    }
}

// The number, from 1, of the first mesh of more than 2^28 bytes.
fn first_long(meshes: &[ArrayMesh]) -> Option<u32>
    requires { length meshes.now ≤ 64 }
    ensures some { IfSome result (IsFirstLong meshes.now) }
    ensures none { IfNone result (All IsShort meshes.now) }
{
    for (index, mesh) in meshes.iter().enumerate() {
        if !mesh.is_short() {
            return Some(index as u32 + 1);
        }
    }
    None
}

// Why there are too few meshes or too many, or too many decimal places.
fn limit_fault(request: &ArrayRequest) -> Option<Refusal>
    ensures some { IfSome result (IsLimitCause request.now) }
    ensures few { result ≡ None → length request.now.meshes.now ≤ 64 }
    ensures digits { result ≡ None → IfSome request.now.digits (λ n. n ≤ 17) }
{
    let count = request.meshes.len();
    if count == 0 {
        return Some(Refusal::NoFiles);
    }
    if count > MOST_MESHES {
        return Some(Refusal::TooManyFiles);
    }
    match request.digits {
        Some(digits) => {
            if digits > MOST_DIGITS {
                Some(Refusal::Digits)
            } else {
                None
            }
        }
        None => None,
    }
}

// The grid and the expression that are asked for, or why nothing is asked for that can be computed.
pub(crate) fn asked_by(
    alloc: Global,
    request: &ArrayRequest,
    step: &WantedStep,
) -> Result<Asked, Status>
    ensures asks { IfOk result (λ asked. Asks request.now step.now asked.wanted (formula_of asked.expr)) }
    ensures choice { IfOk result (λ asked. IsChoice asked.wanted) }
    ensures cause { IfErr result (IsAskingCause request.now step.now) }
{
    if let Some(why) = limit_fault(request) {
        return Err(Status::Words(why));
    }
    let Some(wanted) = wanted_of(step) else {
        return Err(Status::StepOfNoGrid);
    };
    let expr = match bounded_expression(alloc, request.expression, request.meshes.len() as u32) {
        Ok(expr) => expr,
        Err(status) => return Err(status),
    };
    match first_long(request.meshes) {
        Some(number) => Err(Status::LongFile(number)),
        None => Ok(Asked { wanted, expr }),
    }
}
