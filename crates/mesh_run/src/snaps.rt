// Meshes on their grid.
ghost use Rattle.std.specs.Prelude.{◌≡◌, ◌≤◌, [], length, All, false, None, IfOk, IfErr};
ghost use Rattle.ember_model.specs.Limits.{most_bytes};
ghost use Rattle.mesh_grid.specs.Grid.Grids.{IsChoice};
ghost use Rattle.mesh_words.specs.Commands.{IsWithinSnapLimits};
ghost use Rattle.ember_io.specs.Calls.{KeepsContents, shelf_seen, sink_seen};
ghost use Rattle.mesh_run.specs.Calls.{files_seen, target_seen};
ghost use Rattle.mesh_run.specs.Causes.{IsPlacingCause, IsSnapStop};
ghost use Rattle.mesh_run.specs.Files.{IfTold};
ghost use Rattle.mesh_run.specs.Memory.{hides_memory};
ghost use Rattle.mesh_run.specs.Outputs.{AreFilesPlaced, IsPlacedFor};
ghost use Rattle.mesh_run.specs.Serves.{IsSnapUnmet, PutsScene, ServesSnap};

use crate::asked::wanted_of;
use crate::files::scene_files;
use crate::reading::{input_files, read_contents};
use crate::writing::{say, say_why, write_files};
use ember_io::{Shelf, Sink};
use ember_words::Text;
use mesh_boolean::placed_files;
use mesh_grid::Wanted;
use mesh_outside::{Stages, Target};
use mesh_refusal::{Status, snap_said, status_of};
use mesh_report::placed_report;
use mesh_scene::PlacedScene;
use mesh_words::SnapRequest;
use std::alloc::Global;

// Files with these names and bytes on the grid that is wanted.
fn placed_of_contents<P: Stages>(
    alloc: Global,
    names: &[Text],
    contents: &[Vec<u8>],
    wanted: Wanted,
    stages: &P,
) -> Result<PlacedScene, Status>
    requires few { length names.now ≤ 64 }
    requires one_each { length contents.now ≡ length names.now }
    requires small { All (λ bytes. length bytes.items ≤ most_bytes) contents.now }
    requires choice { IsChoice wanted }
    ensures placed { IfOk result
        (IfTold names.now contents.now (λ told names. AreFilesPlaced told names wanted)) }
    ensures cause { IfErr result
        (IfTold names.now contents.now (λ told names. IsPlacingCause told names [] wanted)) }
{
    let files = input_files(alloc, names, contents)?;
    match placed_files(alloc, &files, &[], wanted, stages) {
        Ok(placed) => Ok(placed),
        Err(fault) => Err(status_of(alloc, &files, fault)),
    }
}

// The files of a request on the grid that it asks for. The error is the status with which the call
// ends instead.
fn placed_for<S: Shelf, P: Stages>(
    alloc: Global,
    request: &SnapRequest,
    shelf: &mut S,
    stages: &P,
) -> Result<PlacedScene, Status>
    requires { IsWithinSnapLimits request.now }
    ensures contents { KeepsContents (shelf_seen S.Shelf shelf) }
    ensures placed { IfOk result (IsPlacedFor request.now (S.contents shelf.old)) }
    ensures stop { IfErr result (IsSnapStop request.now (shelf_seen S.Shelf shelf)) }
{
    let Some(wanted) = wanted_of(&request.step) else {
        return Err(Status::StepOfNoGrid);
    };
    let names = request.files.items();
    match read_contents(alloc, shelf, names) {
        Ok(contents) => placed_of_contents(alloc, names, &contents, wanted, stages),
        Err(status) => Err(status),
    }
}

// Writes the files of the scene that a request asks for, and gives the report, or the status that
// says why they aren't written.
fn write_scene<S: Shelf, T: Target, P: Stages>(
    alloc: Global,
    json: bool,
    request: &SnapRequest,
    shelf: &mut S,
    target: &mut T,
    stages: &P,
) -> Result<Vec<u8>, Status>
    requires limits { IsWithinSnapLimits request.now }
    requires begun { T.begun target.old ≡ None }
    ensures contents { KeepsContents (shelf_seen S.Shelf shelf) }
    ensures none_begun { T.begun target.new ≡ None }
    ensures later { T.faults target.old ≤ T.faults target.new }
    ensures written { IfOk result
        (PutsScene json request.now (shelf_seen S.Shelf shelf) (target_seen T.Target target)) }
    ensures stop { IfErr result
        (IsSnapUnmet request.now (shelf_seen S.Shelf shelf) (target_seen T.Target target)) }
{
    let placed = match placed_for(alloc, request, shelf, stages) {
        Ok(placed) => placed,
        Err(status) => return Err(status),
    };
    let report = placed_report(alloc, json, request, &placed)?;
    let files = scene_files(alloc, &request.folder, request.files.items(), &placed)?;
    match write_files(alloc, target, Some(&request.folder), &files) {
        Ok(()) => Ok(report),
        Err(status) => Err(status),
    }
}

/// Puts the meshes of a request on their grid and writes them and the grid, and the report or what is
/// said of the status to err.
pub fn serve_snap<S: Shelf, T: Target, E: Sink, P: Stages>(
    alloc: Global,
    json: bool,
    request: &SnapRequest,
    shelf: &mut S,
    target: &mut T,
    err: &mut E,
    stages: &P,
) -> Status
    requires limits { IsWithinSnapLimits request.now }
    requires begun { T.begun target.old ≡ None }
    ensures contents { KeepsContents (shelf_seen S.Shelf shelf) }
    ensures none_begun { T.begun target.new ≡ None }
    ensures later { T.faults target.old ≤ T.faults target.new }
    ensures outcome { ServesSnap json request.now
        (files_seen S.Shelf T.Target shelf target) (sink_seen E.Sink err) result }
    ensures memory { hides_memory result ≡ false }
{
    match write_scene(alloc, json, request, shelf, target, stages) {
        Ok(report) => {
            say(err, &report);
            Status::Done
        }
        Err(status) => {
            let said = snap_said(alloc, json, request, &status);
            say_why(json, err, status, said)
        }
    }
}
