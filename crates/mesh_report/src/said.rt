// What standard error takes of a request that is met: lines, or one object of JSON.
ghost use Rattle.std.specs.Prelude.{◌≡◌, IfOk};
ghost use Rattle.mesh_grid.specs.Snap.Steps.{IsStep};
ghost use Rattle.mesh_report.specs.Said.{exported_report, placed_report, solid_report};

use crate::report::{export_report, report_of, snap_report};
use crate::report_objects::{mesh_object, scene_object, solid_object};
use ember_model::OutOfMemory;
use mesh_boolean::{OutputMesh, SolidFile};
use mesh_scene::PlacedScene;
use mesh_words::{ExportRequest, Request, SnapRequest};
use std::alloc::Global;

/// The report of a Boolean, as lines or as an object; empty if the request wants none.
pub fn solid_report(
    alloc: Global,
    json: bool,
    request: &Request,
    output: &SolidFile,
) -> Result<Vec<u8>, OutOfMemory>
    requires { IsStep output.now.grid.step }
    ensures { IfOk result (λ text. text.items ≡ solid_report json request.now output.now) }
{
    if json && !request.quiet {
        solid_object(alloc, request.files.items(), request.format, output)
    } else {
        report_of(alloc, request, output)
    }
}

/// The report of placed files, as lines or as an object; empty if the request wants none.
pub fn placed_report(
    alloc: Global,
    json: bool,
    request: &SnapRequest,
    placed: &PlacedScene,
) -> Result<Vec<u8>, OutOfMemory>
    requires { IsStep placed.now.grid.step }
    ensures { IfOk result (λ text. text.items ≡ placed_report json request.now placed.now) }
{
    if json && !request.quiet {
        scene_object(alloc, request.files.items(), placed)
    } else {
        snap_report(alloc, request, placed)
    }
}

/// The report of a document's mesh, as lines or as an object; empty if the request wants none.
pub fn exported_report(
    alloc: Global,
    json: bool,
    request: &ExportRequest,
    mesh: &OutputMesh,
) -> Result<Vec<u8>, OutOfMemory>
    ensures { IfOk result (λ text. text.items ≡ exported_report json request.now mesh.now) }
{
    if json && !request.quiet {
        mesh_object(alloc, request.format, mesh)
    } else {
        export_report(alloc, request, mesh)
    }
}
