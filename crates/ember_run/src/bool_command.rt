// The commands `bool` and `demo`.
ghost use Rattle.std.specs.Prelude.{◌≡◌, ◌≤◌, length, IfOk, IfErr};
ghost use Rattle.ember_gen.specs.Limits.{most_demo_boxes};
ghost use Rattle.ember_expr.specs.Formula.{formula_of};
ghost use Rattle.ember_query.specs.Queries.{IsExecutor};
ghost use Rattle.ember_meaning.specs.Regions.Solids.{IsSolidText};
ghost use Rattle.ember_run.specs.Serves.{IsReplyOver};
ghost use Rattle.ember_verdict.specs.Statuses.{IsText};
ghost use Rattle.ember_io.specs.Calls.{shelf_seen};
ghost use Rattle.ember_verdict.specs.NoReplies.{IsNoReply, IsNoReplyToExpression};
ghost use Rattle.ember_verdict.specs.Solids.{IsReportTextIfAsked, IsReportText, line_if_asked};
ghost use Rattle.ember_verdict.specs.Verdict.{bool_verdict, demo_verdict};

use crate::reply::Reply;
use ember_expr::Expr;
use ember_gen::scene_of;
use ember_io::Shelf;
use ember_model::{OutOfMemory, Scene};
use ember_query::{Answer, Query, report_of_solid, solid_of};
use ember_report::{Report, report_line};
use ember_verdict::{Status, parse_bounded, parse_union, read_scene};
use ember_words::{Text, Texts};
use std::alloc::Global;

// The line of the report if it is asked for, otherwise nothing.
fn line_if_asked(alloc: Global, reported: bool, report: &Report) -> Result<Vec<u8>, OutOfMemory>
    ensures { IfOk result (λ line. line.items ≡ line_if_asked reported report.now) }
{
    if !reported {
        return Ok(Vec::new(alloc));
    }
    report_line(alloc, report)
}

// The document of the solid, and the line of its report, if it is asked for.
#[tactic(auto, using(ember_verdict::proofs::SolidVerdicts::report_line_is))]
fn reply_of_solid<C: Fn(&Query) -> Result<Answer, OutOfMemory>>(
    alloc: Global,
    scene: &Scene,
    expr: &Expr,
    reported: bool,
    executor: &C,
) -> Result<Reply, OutOfMemory>
    requires { IsExecutor C.pre C.post executor.now }
    ensures text { IfOk result (λ reply. IsSolidText scene.now.tris (formula_of expr.now) reply.text.items) }
    ensures report { IfOk result
        (λ it. IsReportTextIfAsked reported scene.now.tris (formula_of expr.now) it.report.items) }
{
    let solid = solid_of(alloc, scene, expr, executor)?;
    let report = line_if_asked(alloc, reported, &solid.report)?;
    Ok(Reply {
        text: solid.text,
        report,
    })
}

/// The document of `bool`, and the line of the report, if it is asked for. `places` is at most 3,
/// and there are at most 64 files. The error is the status with which the call ends instead.
pub fn bool_output<S: Shelf, C: Fn(&Query) -> Result<Answer, OutOfMemory>>(
    alloc: Global,
    expr: &Text,
    places: u8,
    reported: bool,
    files: &Texts,
    shelf: &mut S,
    executor: &C,
) -> Result<Reply, Status>
    requires places { places ≤ 3 }
    requires few { length files.now ≤ 64 }
    requires executor { IsExecutor C.pre C.post executor.now }
    ensures contents { S.contents shelf.new ≡ S.contents shelf.old }
    ensures later { S.faults shelf.old ≤ S.faults shelf.new }
    ensures reply { IfOk result
        (IsReplyOver reported (bool_verdict expr.now places) files.now (S.contents shelf.old)) }
    ensures no_reply { IfErr result
        (IsNoReply (bool_verdict expr.now places) files.now (shelf_seen S.Shelf shelf)) }
{
    let files = files.items();
    let expr = match parse_bounded(alloc, expr, files.len() as u32) {
        Ok(expr) => expr,
        Err(status) => return Err(status),
    };
    let scene = match read_scene(alloc, shelf, files, places) {
        Ok(scene) => scene,
        Err(status) => return Err(status),
    };
    // The reply's text is that of one document (`IsSolidText`). By the lemma `solid_file` of ember_verdict
    // it is a file as the verdict wants it (`IsSolidFile`). The proof of this function cites it.
    let reply = reply_of_solid(alloc, &scene, &expr, reported, executor)?;
    Ok(reply)
}

// The line of the report of a solid.
#[tactic(auto, using(ember_verdict::proofs::SolidVerdicts::is_report_text))]
fn report_text<C: Fn(&Query) -> Result<Answer, OutOfMemory>>(
    alloc: Global,
    scene: &Scene,
    expr: &Expr,
    executor: &C,
) -> Result<Vec<u8>, OutOfMemory>
    requires { IsExecutor C.pre C.post executor.now }
    ensures { IfOk result (λ text. IsReportText scene.now.tris (formula_of expr.now) text.items) }
{
    let report = report_of_solid(scene, expr, executor)?;
    let text = report_line(alloc, &report)?;
    Ok(text)
}

/// The output of `demo`: the line of the report of the union of the two meshes of generated boxes.
/// There are at most 20000 `boxes`. The error is the status with which the call ends instead.
#[tactic(auto, using(ember_verdict::proofs::SolidVerdicts::report_written, ember_verdict::proofs::SolidVerdicts::report_refused, ember_verdict::proofs::NoReplies::memory_is_no_reply_to_expression))]
pub fn demo_output<C: Fn(&Query) -> Result<Answer, OutOfMemory>>(
    alloc: Global,
    boxes: u32,
    executor: &C,
) -> Result<Vec<u8>, Status>
    requires boxes { boxes ≤ most_demo_boxes }
    requires executor { IsExecutor C.pre C.post executor.now }
    ensures text { IfOk result (λ text. IsText (demo_verdict boxes) text.items) }
    ensures no_reply { IfErr result (IsNoReplyToExpression (demo_verdict boxes)) }
{
    let expr = match parse_union(alloc) {
        Ok(expr) => expr,
        Err(status) => return Err(status),
    };
    let scene = scene_of(alloc, boxes)?;
    let text = report_text(alloc, &scene, &expr, executor)?;
    Ok(text)
}
