// The mesh of a document.
ghost use Rattle.std.specs.Prelude.{◌≡◌, ◌≤◌, false, None, IfOk, IfErr, IfSome};
ghost use Rattle.ember_io.specs.Shelves.{AreBytes};
ghost use Rattle.mesh_scene.specs.SceneFile.Scenes.{IsSceneOf};
ghost use Rattle.mesh_grid.specs.Snap.Steps.{IsStep};
ghost use Rattle.ember_io.specs.Calls.{KeepsContents, shelf_seen};
ghost use Rattle.mesh_run.specs.Calls.{devices, target_seen};
ghost use Rattle.mesh_run.specs.Exports.{IsExport, IsExportStop, IsGridGiven, IsNoGrid, IsUnreadFile, document_index, status_of_document, unit_grid};
ghost use Rattle.mesh_run.specs.Memory.{hides_memory};
ghost use Rattle.mesh_run.specs.Serves.{IsExportUnmet, SendsExport, ServesExport};

use crate::asked::format_asked;
use crate::files::written_files;
use crate::reading::MOST_BYTES;
use crate::writing::{Sending, say_why, send, write_files};
use ember_io::{ReadEnd, Shelf, Sink, read_all};
use ember_words::Text;
use mesh_boolean::{DocumentFileFault, OutputMesh, document_file};
use mesh_grid::{Grid, GridStep, Offset};
use mesh_outside::Target;
use mesh_refusal::{Status, export_said};
use mesh_report::exported_report;
use mesh_scene::{SceneFileFault, read_grid};
use mesh_words::ExportRequest;
use std::alloc::Global;

// The grid of a document if no scene is named: its numbers are those of the user.
fn unit_grid() -> Grid
    ensures { result ≡ unit_grid }
{
    Grid {
        step: GridStep {
            numerator: 1,
            denominator: 1,
        },
        offset: Offset { x: 0, y: 0, z: 0 },
    }
}

// The bytes of a file, which is read under this number.
fn bytes_in<S: Shelf>(
    alloc: Global,
    shelf: &mut S,
    name: &Text,
    number: u32,
) -> Result<Vec<u8>, Status>
    ensures contents { KeepsContents (shelf_seen S.Shelf shelf) }
    ensures bytes { IfOk result (λ bytes. AreBytes (S.contents shelf.old) name.now bytes.items) }
    ensures cause { IfErr result (IsUnreadFile name.now number (shelf_seen S.Shelf shelf)) }
{
    match read_all(alloc, shelf, name.as_str(), number, MOST_BYTES) {
        Ok(bytes) => Ok(bytes),
        Err(ReadEnd::ReadFault) => Err(Status::ReadFault(number, shelf.last_fault())),
        Err(ReadEnd::TooLong(_)) => Err(Status::LongFile(number)),
        Err(ReadEnd::OutOfMemory) => Err(Status::OutOfMemory),
    }
}

// The grid that these bytes hold.
fn grid_in(alloc: Global, bytes: &[u8]) -> Result<Grid, Status>
    ensures grid { IfOk result (IsSceneOf bytes.now) }
    ensures cause { IfErr result (IsNoGrid bytes.now) }
{
    match read_grid(alloc, bytes) {
        Ok(grid) => Ok(grid),
        Err(SceneFileFault::NotAScene) => Err(Status::NotAScene),
        Err(SceneFileFault::OutOfMemory) => Err(Status::OutOfMemory),
    }
}

// The grid of a request's document.
fn grid_given<S: Shelf>(
    alloc: Global,
    request: &ExportRequest,
    shelf: &mut S,
) -> Result<Grid, Status>
    ensures contents { KeepsContents (shelf_seen S.Shelf shelf) }
    ensures step { IfOk result (λ grid. IsStep grid.step) }
    ensures grid { IfOk result (IsGridGiven request.now (S.contents shelf.old)) }
    ensures stop { IfErr result (IsExportStop request.now (shelf_seen S.Shelf shelf)) }
{
    let Some(name) = &request.scene else {
        return Ok(unit_grid());
    };
    match bytes_in(alloc, shelf, name, 1) {
        Ok(bytes) => grid_in(alloc, &bytes),
        Err(status) => Err(status),
    }
}

// The number under which the document is read.
fn document_index(request: &ExportRequest) -> u32
    ensures { result ≡ document_index request.now }
{
    if request.scene.is_some() { 2 } else { 1 }
}

// The status of a document with this fault.
fn document_status(fault: DocumentFileFault) -> Status
    ensures { result ≡ status_of_document fault }
{
    match fault {
        DocumentFileFault::Document(fault) => Status::DocumentRefused(fault),
        DocumentFileFault::TooFar => Status::TooFar,
        DocumentFileFault::TooManyTriangles => Status::TooManyWritten,
        DocumentFileFault::OutOfMemory => Status::OutOfMemory,
    }
}

// The mesh that a request asks for. The error is the status with which the call ends instead.
fn mesh_for<S: Shelf>(
    alloc: Global,
    request: &ExportRequest,
    shelf: &mut S,
) -> Result<OutputMesh, Status>
    requires { IfSome request.now.digits (λ n. n ≤ 17) }
    ensures contents { KeepsContents (shelf_seen S.Shelf shelf) }
    ensures mesh { IfOk result (IsExport request.now (S.contents shelf.old)) }
    ensures stop { IfErr result (IsExportStop request.now (shelf_seen S.Shelf shelf)) }
{
    let grid = match grid_given(alloc, request, shelf) {
        Ok(grid) => grid,
        Err(status) => return Err(status),
    };
    let bytes = match bytes_in(alloc, shelf, &request.document, document_index(request)) {
        Ok(bytes) => bytes,
        Err(status) => return Err(status),
    };
    let format = format_asked(request.format, request.digits);
    match document_file(alloc, &bytes, grid, format, request.view.is_some()) {
        Ok(mesh) => Ok(mesh),
        Err(fault) => Err(document_status(fault)),
    }
}

// Writes the mesh that a request asks for, if it goes to a file. Gives what goes to standard output
// and the report, or the status that says why it isn't written.
fn write_export<S: Shelf, T: Target>(
    alloc: Global,
    json: bool,
    request: &ExportRequest,
    shelf: &mut S,
    target: &mut T,
) -> Result<Sending, Status>
    requires digits { IfSome request.now.digits (λ n. n ≤ 17) }
    requires begun { T.begun target.old ≡ None }
    ensures contents { KeepsContents (shelf_seen S.Shelf shelf) }
    ensures none_begun { T.begun target.new ≡ None }
    ensures later { T.faults target.old ≤ T.faults target.new }
    ensures written { IfOk result
        (SendsExport json request.now (shelf_seen S.Shelf shelf) (target_seen T.Target target)) }
    ensures stop { IfErr result
        (IsExportUnmet request.now (shelf_seen S.Shelf shelf) (target_seen T.Target target)) }
{
    let mesh = match mesh_for(alloc, request, shelf) {
        Ok(mesh) => mesh,
        Err(status) => return Err(status),
    };
    let report = exported_report(alloc, json, request, &mesh)?;
    let made = written_files(alloc, &request.view, &request.output, mesh)?;
    match write_files(alloc, target, None, &made.files) {
        Ok(()) => Ok(Sending {
            sent: made.sent,
            report,
        }),
        Err(status) => Err(status),
    }
}

/// Writes the mesh of a document, to a file or to `out`, and the report or what is said of the status
/// to err.
pub fn serve_export<S: Shelf, T: Target, O: Sink, E: Sink>(
    alloc: Global,
    json: bool,
    request: &ExportRequest,
    shelf: &mut S,
    target: &mut T,
    out: &mut O,
    err: &mut E,
) -> Status
    requires digits { IfSome request.now.digits (λ n. n ≤ 17) }
    requires begun { T.begun target.old ≡ None }
    ensures contents { KeepsContents (shelf_seen S.Shelf shelf) }
    ensures none_begun { T.begun target.new ≡ None }
    ensures later { T.faults target.old ≤ T.faults target.new }
    ensures later_out { O.faults out.old ≤ O.faults out.new }
    ensures outcome { ServesExport json request.now
        (devices S.Shelf T.Target O.Sink E.Sink shelf target out err) result }
    ensures memory { hides_memory result ≡ false }
{
    match write_export(alloc, json, request, shelf, target) {
        Ok(sending) => send(json, out, err, &sending.sent, &sending.report),
        Err(status) => {
            let said = export_said(alloc, json, request, &status);
            say_why(json, err, status, said)
        }
    }
}
