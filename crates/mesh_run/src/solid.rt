// The files of a Boolean.
ghost use Rattle.std.specs.Prelude.{◌≡◌, ◌≤◌, length, All, false, None, IfOk, IfErr};
ghost use Rattle.ember_model.specs.Limits.{most_bytes};
ghost use Rattle.mesh_boolean.specs.Images.{AreForEach};
ghost use Rattle.mesh_boolean.specs.Outputs.{HasFewDigits};
ghost use Rattle.mesh_grid.specs.Grid.Grids.{IsChoice};
ghost use Rattle.mesh_words.specs.Commands.{IsWithinLimits};
ghost use Rattle.ember_query.specs.Queries.{IsExecutor};
ghost use Rattle.mesh_triangles.specs.PlaneQueries.{IsPlaneExecutor};
ghost use Rattle.ember_io.specs.Calls.{KeepsContents, shelf_seen};
ghost use Rattle.mesh_run.specs.Calls.{devices, target_seen};
ghost use Rattle.mesh_run.specs.Causes.{IsStop};
ghost use Rattle.mesh_run.specs.OfAsked.{IsCauseAsked, IsOutputAsked};
ghost use Rattle.mesh_run.specs.Files.{IfTold};
ghost use Rattle.mesh_run.specs.Memory.{hides_memory};
ghost use Rattle.mesh_run.specs.Outputs.{IsOutputFor};
ghost use Rattle.mesh_run.specs.Serves.{IsSolidUnmet, SendsSolid, ServesSolid};

use crate::asked::{Asked, asked_by, placings_asked};
use crate::files::solid_files;
use crate::reading::{input_files, read_contents};
use crate::writing::{Sending, say_why, send, write_files};
use ember_io::{Shelf, Sink};
use ember_model::OutOfMemory;
use ember_query::{Answer, Query};
use ember_words::Text;
use mesh_boolean::{SolidFile, solid_file};
use mesh_outside::{Stages, Target};
use mesh_refusal::{Status, solid_said, status_of};
use mesh_report::solid_report;
use mesh_triangles::{PlaneAnswer, PlaneQuery, TrianglesFault};
use mesh_words::Request;
use std::alloc::Global;

// The output for files with these names and bytes.
fn output_of_contents<
    P: Stages,
    C: Fn(&Query) -> Result<Answer, OutOfMemory>,
    D: Fn(&PlaneQuery) -> Result<PlaneAnswer, TrianglesFault>,
>(
    alloc: Global,
    names: &[Text],
    contents: &[Vec<u8>],
    asked: &Asked,
    stages: &P,
    executor: &C,
    plane_executor: &D,
) -> Result<SolidFile, Status>
    requires few { length names.now ≤ 64 }
    requires one_each { length contents.now ≡ length names.now }
    requires small { All (λ bytes. length bytes.items ≤ most_bytes) contents.now }
    requires placings { AreForEach asked.now.wanted.placings.now names.now }
    requires choice { IsChoice asked.now.wanted.grid }
    requires digits { HasFewDigits asked.now.wanted.format }
    requires executor { IsExecutor C.pre C.post executor.now }
    requires plane_executor { IsPlaneExecutor D.pre D.post plane_executor.now }
    ensures output { IfOk result (IfTold names.now contents.now (IsOutputAsked asked.now)) }
    ensures cause { IfErr result (IfTold names.now contents.now (IsCauseAsked asked.now)) }
{
    let files = input_files(alloc, names, contents)?;
    match solid_file(
        alloc,
        &files,
        &asked.expr,
        asked.wanted,
        stages,
        executor,
        plane_executor,
    ) {
        Ok(output) => Ok(output),
        Err(fault) => Err(status_of(alloc, &files, fault)),
    }
}

// The output that a request asks for. The error is the status with which the call ends instead. No
// file is opened if the words or the expression are refused.
fn solid_output<
    S: Shelf,
    P: Stages,
    C: Fn(&Query) -> Result<Answer, OutOfMemory>,
    D: Fn(&PlaneQuery) -> Result<PlaneAnswer, TrianglesFault>,
>(
    alloc: Global,
    request: &Request,
    shelf: &mut S,
    stages: &P,
    executor: &C,
    plane_executor: &D,
) -> Result<SolidFile, Status>
    requires limits { IsWithinLimits request.now }
    requires executor { IsExecutor C.pre C.post executor.now }
    requires plane_executor { IsPlaneExecutor D.pre D.post plane_executor.now }
    ensures same { S.contents shelf.new ≡ S.contents shelf.old }
    ensures later { S.faults shelf.old ≤ S.faults shelf.new }
    ensures output { IfOk result (IsOutputFor request.now (S.contents shelf.old)) }
    ensures stop { IfErr result (IsStop request.now (shelf_seen S.Shelf shelf)) }
{
    let placings = placings_asked(alloc, request)?;
    let asked = match asked_by(alloc, request, placings.as_slice()) {
        Ok(asked) => asked,
        Err(status) => return Err(status),
    };
    let names = request.files.items();
    match read_contents(alloc, shelf, names) {
        Ok(contents) => {
            output_of_contents(
                alloc,
                names,
                &contents,
                &asked,
                stages,
                executor,
                plane_executor,
            )
        }
        Err(status) => Err(status),
    }
}

// Writes the files that a request asks for, and gives what goes to standard output and the report,
// or the status that says why they aren't written.
fn write_solid<
    S: Shelf,
    T: Target,
    P: Stages,
    C: Fn(&Query) -> Result<Answer, OutOfMemory>,
    D: Fn(&PlaneQuery) -> Result<PlaneAnswer, TrianglesFault>,
>(
    alloc: Global,
    json: bool,
    request: &Request,
    shelf: &mut S,
    target: &mut T,
    stages: &P,
    executor: &C,
    plane_executor: &D,
) -> Result<Sending, Status>
    requires limits { IsWithinLimits request.now }
    requires begun { T.begun target.old ≡ None }
    requires executor { IsExecutor C.pre C.post executor.now }
    requires plane_executor { IsPlaneExecutor D.pre D.post plane_executor.now }
    ensures contents { KeepsContents (shelf_seen S.Shelf shelf) }
    ensures none_begun { T.begun target.new ≡ None }
    ensures later { T.faults target.old ≤ T.faults target.new }
    ensures written { IfOk result
        (SendsSolid json request.now (shelf_seen S.Shelf shelf) (target_seen T.Target target)) }
    ensures stop { IfErr result
        (IsSolidUnmet request.now (shelf_seen S.Shelf shelf) (target_seen T.Target target)) }
{
    let output = match solid_output(alloc, request, shelf, stages, executor, plane_executor) {
        Ok(output) => output,
        Err(status) => return Err(status),
    };
    let report = solid_report(alloc, json, request, &output)?;
    let made = solid_files(alloc, request, output)?;
    match write_files(alloc, target, request.keep.as_ref(), &made.files) {
        Ok(()) => Ok(Sending {
            sent: made.sent,
            report,
        }),
        Err(status) => Err(status),
    }
}

/// Writes the files that a request asks for, the solid to `out` if it goes there, and the report or
/// what is said of the status to err.
pub fn serve_solid<
    S: Shelf,
    T: Target,
    O: Sink,
    E: Sink,
    P: Stages,
    C: Fn(&Query) -> Result<Answer, OutOfMemory>,
    D: Fn(&PlaneQuery) -> Result<PlaneAnswer, TrianglesFault>,
>(
    alloc: Global,
    json: bool,
    request: &Request,
    shelf: &mut S,
    target: &mut T,
    out: &mut O,
    err: &mut E,
    stages: &P,
    executor: &C,
    plane_executor: &D,
) -> Status
    requires limits { IsWithinLimits request.now }
    requires begun { T.begun target.old ≡ None }
    requires executor { IsExecutor C.pre C.post executor.now }
    requires plane_executor { IsPlaneExecutor D.pre D.post plane_executor.now }
    ensures contents { KeepsContents (shelf_seen S.Shelf shelf) }
    ensures none_begun { T.begun target.new ≡ None }
    ensures later { T.faults target.old ≤ T.faults target.new }
    ensures later_out { O.faults out.old ≤ O.faults out.new }
    ensures outcome { ServesSolid json request.now
        (devices S.Shelf T.Target O.Sink E.Sink shelf target out err) result }
    ensures memory { hides_memory result ≡ false }
{
    match write_solid(
        alloc,
        json,
        request,
        shelf,
        target,
        stages,
        executor,
        plane_executor,
    ) {
        Ok(sending) => send(json, out, err, &sending.sent, &sending.report),
        Err(status) => {
            let said = solid_said(alloc, json, request, &status);
            say_why(json, err, status, said)
        }
    }
}
