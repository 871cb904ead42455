// What words ask for, before any file is read.
ghost use Rattle.std.specs.Prelude.{◌≡◌, ◌≤◌, IfOk, IfErr, IfSome, IfNone};
ghost use Rattle.mesh_boolean.specs.Outputs.{HasFewDigits};
ghost use Rattle.ember_expr.specs.Formula.{formula_of};
ghost use Rattle.mesh_grid.specs.Grid.Grids.{IsChoice};
ghost use Rattle.mesh_words.specs.Commands.{IsWithinLimits};
ghost use Rattle.mesh_run.specs.Asked.{AreAsked, Asks, AsksFile, IsExpression, IsExpressionCause, IsStepOfNoGrid, IsWanted, IsWordsCause, format_asked};

use ember_expr::{Expr, ExprFault, bounded, parse};
use ember_words::Text;
use mesh_boolean::{FloatFormat, MeshFormat, WantedFile};
use mesh_grid::{Wanted, step_of};
use mesh_placing::{Placing, placings_of};
use mesh_refusal::Status;
use mesh_words::{OutputFormat, Request, WantedStep};
use mesh_write::TextFormat;
use std::alloc::{AllocError, Global};

// The file and the expression that a request asks for.
#[derive(Drop)]
pub(crate) struct Asked<'p, 's> {
    pub wanted: WantedFile<'p, 's>,
    pub expr: Expr,
}

/// The step that is asked for, unless no grid has it.
pub(crate) fn wanted_of(step: &WantedStep) -> Option<Wanted>
    ensures wanted { IfSome result (IsWanted step.now) }
    ensures choice { IfSome result IsChoice }
    ensures none { IfNone result (IsStepOfNoGrid step.now) }
{
    match step {
        WantedStep::Nice => Some(Wanted::Nice),
        WantedStep::Finest => Some(Wanted::Finest),
        WantedStep::Decimal(text) => match step_of(text.as_str().as_bytes()) {
            Some(step) => Some(Wanted::Given(step)),
            None => None,
        },
    }
}

/// The format that the output's name and `--digits` ask for.
pub(crate) fn format_asked(format: OutputFormat, digits: Option<u32>) -> MeshFormat
    requires { IfSome digits (λ n. n ≤ 17) }
    ensures value { result ≡ format_asked format digits }
    ensures digits { HasFewDigits result }
{
    match format {
        OutputFormat::Stl => MeshFormat::Floats(FloatFormat::Stl),
        OutputFormat::Glb => MeshFormat::Floats(FloatFormat::Glb),
        OutputFormat::Obj => MeshFormat::Text(TextFormat::Obj, digits),
        OutputFormat::Ply => MeshFormat::Text(TextFormat::Ply, digits),
        OutputFormat::Off => MeshFormat::Text(TextFormat::Off, digits),
    }
}

/// How a request places its files.
pub(crate) fn placings_asked(
    alloc: Global,
    request: &Request,
) -> Result<Vec<Option<Placing<'_>>>, AllocError>
    requires { IsWithinLimits request.now }
    ensures { IfOk result (λ placings. AreAsked request.now placings.items) }
{
    let files = request.files.items().len() as u32;
    match placings_of(alloc, files, request.places.items(), request.turns.items()) {
        Ok(placings) => Ok(placings),
        Err(_) => Err(AllocError),
    }
}

// The file that a request asks for, with its placings, unless no grid has the step.
fn file_asked<'p, 's>(
    request: &Request,
    placings: &'p [Option<Placing<'s>>],
) -> Result<WantedFile<'p, 's>, Status>
    requires limits { IsWithinLimits request.now }
    requires placings { AreAsked request.now placings.now }
    ensures wanted { IfOk result (AsksFile request.now) }
    ensures choice { IfOk result (λ wanted. IsChoice wanted.grid) }
    ensures digits { IfOk result (λ wanted. HasFewDigits wanted.format) }
    ensures cause { IfErr result (IsWordsCause request.now) }
{
    let format = format_asked(request.format, request.digits);
    match wanted_of(&request.step) {
        Some(grid) => Ok(WantedFile {
            placings,
            grid,
            format,
            shows: request.view.is_some(),
            keeps: request.keep.is_some(),
            counts: !request.quiet,
        }),
        None => Err(Status::StepOfNoGrid),
    }
}

// The expression of the text over so many meshes, if it is false outside all of them.
fn bounded_expression(alloc: Global, text: &Text, meshes: u32) -> Result<Expr, Status>
    requires { meshes ≤ 64 }
    ensures expression { IfOk result (λ expr. IsExpression text.now meshes (formula_of expr)) }
    ensures cause { IfErr result (IsExpressionCause text.now meshes) }
{
    match parse(alloc, text.as_str().as_bytes(), meshes) {
        Ok(expr) => {
            if bounded(&expr) {
                Ok(expr)
            } else {
                Err(Status::Unbounded)
            }
        }
        Err(ExprFault::OutOfMemory) => Err(Status::OutOfMemory),
        Err(fault) => Err(Status::ExprRefused(fault)),
    }
}

// The file and the expression that a request asks for, with its placings, or why it asks for nothing
// that can be computed.
pub(crate) fn asked_by<'p, 's>(
    alloc: Global,
    request: &Request,
    placings: &'p [Option<Placing<'s>>],
) -> Result<Asked<'p, 's>, Status>
    requires limits { IsWithinLimits request.now }
    requires placings { AreAsked request.now placings.now }
    ensures asks { IfOk result (λ asked. Asks request.now asked.wanted (formula_of asked.expr)) }
    ensures choice { IfOk result (λ asked. IsChoice asked.wanted.grid) }
    ensures digits { IfOk result (λ asked. HasFewDigits asked.wanted.format) }
    ensures cause { IfErr result (IsWordsCause request.now) }
{
    let wanted = match file_asked(request, placings) {
        Ok(wanted) => wanted,
        Err(status) => return Err(status),
    };
    let meshes = request.files.items().len() as u32;
    match bounded_expression(alloc, &request.expression, meshes) {
        Ok(expr) => Ok(Asked { wanted, expr }),
        Err(status) => Err(status),
    }
}
