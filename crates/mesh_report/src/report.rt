// The reports.
ghost use Rattle.std.specs.Prelude.{◌≡◌, ◌++◌, ◌<◌, drop, IfOk, OnOk};
ghost use Rattle.mesh_texts.specs.Texts.{line};
ghost use Rattle.mesh_grid.specs.Moves.Shown.{rounded_of};
ghost use Rattle.mesh_grid.specs.Snap.Steps.{IsStep};
ghost use Rattle.mesh_report.specs.Reports.{AddsResult, AddsScene, coarse_line, coarse_text, counts_line, counts_lines, empty_line, export_report, first_move, grid_line, is_text, is_unpaired, losses_text, mesh_line, mesh_lines, mesh_text, name_of_format, remedy, report_of, snap_report, unpaired_line, unpaired_text};

use crate::lying::{put_on_files, told};
use crate::volumes::put_volumes;
use ember_model::OutOfMemory;
use ember_words::Text;
use mesh_boolean::{OutputMesh, SolidFile, sixfold_volumes_of_meshes};
use mesh_effect::put_move as put_rounding_move;
use mesh_grid::{Grid, Length};
use mesh_scene::{Counts, PlacedScene};
use mesh_texts::{line, put_count, put_move, put_signed, put_step};
use mesh_words::{ExportRequest, OutputFormat, Request, SnapRequest};
use std::alloc::Global;

// How a warning of edges without two triangles ends.
const UNPAIRED: &[u8] =
    b" don't have two triangles, so it isn't a 2-manifold; let touching parts overlap, or raise --digits";

/// Appends a line with this text.
pub fn put_line(alloc: Global, said: &[u8], text: &mut Vec<u8>) -> Result<(), OutOfMemory>
    ensures { OnOk result (text.new.items ≡ text.old.items ++ line said.now) }
{
    let line = line(alloc, said)?;
    text.extend_from_slice(&line)
}

// Appends the line of the grid.
fn put_grid(alloc: Global, grid: &Grid, text: &mut Vec<u8>) -> Result<(), OutOfMemory>
    requires { 0 < grid.now.step.denominator }
    ensures { OnOk result (text.new.items ≡ text.old.items ++ grid_line grid.now) }
{
    let mut said = Vec::from_slice(alloc, b"step ")?;
    put_step(&grid.step, &mut said)?;
    said.extend_from_slice(b", grid offset ")?;
    put_signed(grid.offset.x, &mut said)?;
    said.extend_from_slice(b" ")?;
    put_signed(grid.offset.y, &mut said)?;
    said.extend_from_slice(b" ")?;
    put_signed(grid.offset.z, &mut said)?;
    put_line(alloc, &said, text)
}

// Appends the line of a file.
fn put_counts(
    alloc: Global,
    name: &[u8],
    counts: &Counts,
    moved: &Length,
    text: &mut Vec<u8>,
) -> Result<(), OutOfMemory>
    ensures { OnOk result (text.new.items ≡
        text.old.items ++ counts_line name.now counts.now (rounded_of moved.now)) }
{
    let mut said = Vec::from_slice(alloc, name)?;
    said.extend_from_slice(b": ")?;
    put_count(counts.triangles, &mut said)?;
    said.extend_from_slice(b" triangles, ")?;
    put_count(counts.vanished, &mut said)?;
    said.extend_from_slice(b" vanished, ")?;
    put_count(counts.flat, &mut said)?;
    said.extend_from_slice(b" without area; greatest move ")?;
    put_move(moved, &mut said)?;
    said.extend_from_slice(b"; closed")?;
    put_line(alloc, &said, text)
}

/// The move with this index, or 0 if there is none.
pub fn move_at(moves: &[Length], index: usize) -> Length
    ensures { rounded_of result ≡ first_move (drop index moves.now) }
{
    let Some(moved) = moves.get(index) else {
        return Length { size: 0, places: 0 };
    };
    *moved
}

// Appends the line of each file.
fn put_all_counts(
    alloc: Global,
    names: &[Text],
    counts: &[Counts],
    moves: &[Length],
    text: &mut Vec<u8>,
) -> Result<(), OutOfMemory>
    ensures { OnOk result (text.new.items ≡
        text.old.items ++ counts_lines names.now counts.now moves.now) }
{
    let mut file = 0;
    for name in names {
        let Some(counts) = counts.get(file) else {
            return Ok(());
        };
        let moved = move_at(moves, file);
        put_counts(alloc, name.as_str().as_bytes(), counts, &moved, text)?;
        file += 1;
    }
    Ok(())
}

// Appends that the result is empty, if it is.
fn put_empty(alloc: Global, mesh: &OutputMesh, text: &mut Vec<u8>) -> Result<(), OutOfMemory>
    ensures { OnOk result (text.new.items ≡ text.old.items ++ empty_line mesh.now) }
{
    if mesh.triangles != mesh.vanished {
        return Ok(());
    }
    put_line(alloc, b"the result is empty", text)
}

fn name_of_format(format: OutputFormat) -> &'static [u8]
    ensures { result.now ≡ name_of_format format }
{
    match format {
        OutputFormat::Stl => b"STL",
        OutputFormat::Obj => b"OBJ",
        OutputFormat::Ply => b"PLY",
        OutputFormat::Off => b"OFF",
        OutputFormat::Glb => b"GLB",
    }
}

/// Whether the format is a text. A text has vertices that its triangles share.
pub fn is_text(format: OutputFormat) -> bool
    ensures { result ≡ is_text format }
{
    match format {
        OutputFormat::Stl | OutputFormat::Glb => false,
        OutputFormat::Obj | OutputFormat::Ply | OutputFormat::Off => true,
    }
}

// What helps against a large rounding.
fn remedy(format: OutputFormat) -> &'static [u8]
    ensures { result.now ≡ remedy format }
{
    if is_text(format) {
        b"raise --digits, or leave it out"
    } else {
        b"write OBJ, PLY or OFF, or move the parts to the origin"
    }
}

/// Appends that rounding moves corners far, and what helps.
pub fn put_coarse_text(
    format: OutputFormat,
    mesh: &OutputMesh,
    text: &mut Vec<u8>,
) -> Result<(), OutOfMemory>
    ensures { OnOk result (text.new.items ≡ text.old.items ++ coarse_text format mesh.now) }
{
    text.extend_from_slice(b"rounding for ")?;
    text.extend_from_slice(name_of_format(format))?;
    text.extend_from_slice(b" moves corners by up to ")?;
    put_rounding_move(&mesh.effect.greatest, text)?;
    text.extend_from_slice(b", more than a hundredth of the step; ")?;
    text.extend_from_slice(remedy(format))
}

// Appends that rounding moves corners far, if it does.
fn put_coarse(
    alloc: Global,
    format: OutputFormat,
    mesh: &OutputMesh,
    text: &mut Vec<u8>,
) -> Result<(), OutOfMemory>
    ensures { OnOk result (text.new.items ≡ text.old.items ++ coarse_line format mesh.now) }
{
    if !mesh.effect.is_coarse {
        return Ok(());
    }
    let mut said = Vec::from_slice(alloc, b"warning: ")?;
    put_coarse_text(format, mesh, &mut said)?;
    put_line(alloc, &said, text)
}

/// Whether a text has an edge without two triangles.
pub fn is_unpaired(format: OutputFormat, mesh: &OutputMesh) -> bool
    ensures { result ≡ is_unpaired format mesh.now }
{
    is_text(format) && !mesh.is_manifold
}

/// Appends that a text has such an edge, and what helps.
pub fn put_unpaired_text(format: OutputFormat, text: &mut Vec<u8>) -> Result<(), OutOfMemory>
    ensures { OnOk result (text.new.items ≡ text.old.items ++ unpaired_text format) }
{
    text.extend_from_slice(b"some edges of the ")?;
    text.extend_from_slice(name_of_format(format))?;
    text.extend_from_slice(UNPAIRED)
}

// Appends that a text has such an edge, if it has.
fn put_unpaired(
    alloc: Global,
    format: OutputFormat,
    mesh: &OutputMesh,
    text: &mut Vec<u8>,
) -> Result<(), OutOfMemory>
    ensures { OnOk result (text.new.items ≡ text.old.items ++ unpaired_line format mesh.now) }
{
    if !is_unpaired(format, mesh) {
        return Ok(());
    }
    let mut said = Vec::from_slice(alloc, b"warning: ")?;
    put_unpaired_text(format, &mut said)?;
    put_line(alloc, &said, text)
}

// Appends how large the mesh of so many faces is, and how far rounding moved its corners.
fn put_mesh_text(faces: u64, mesh: &OutputMesh, text: &mut Vec<u8>) -> Result<(), OutOfMemory>
    ensures { OnOk result (text.new.items ≡ text.old.items ++ mesh_text faces mesh.now) }
{
    put_count(faces, text)?;
    text.extend_from_slice(b" faces -> ")?;
    put_count(mesh.written, text)?;
    text.extend_from_slice(b" triangles in ")?;
    put_count(mesh.planes, text)?;
    text.extend_from_slice(b" planes; greatest rounding move ")?;
    put_rounding_move(&mesh.effect.greatest, text)
}

// Appends what rounding did to the triangles, and how many edges more than two of them have.
fn put_losses(mesh: &OutputMesh, text: &mut Vec<u8>) -> Result<(), OutOfMemory>
    ensures { OnOk result (text.new.items ≡ text.old.items ++ losses_text mesh.now) }
{
    put_count(mesh.vanished, text)?;
    text.extend_from_slice(b" vanished, ")?;
    put_count(mesh.effect.facings.without_area, text)?;
    text.extend_from_slice(b" without area, ")?;
    put_count(mesh.effect.facings.turned_over, text)?;
    text.extend_from_slice(b" turned over; ")?;
    put_count(mesh.shared, text)?;
    text.extend_from_slice(b" edges of more than two triangles")
}

// Appends the line of the mesh of so many faces.
fn put_mesh(
    alloc: Global,
    faces: u64,
    mesh: &OutputMesh,
    text: &mut Vec<u8>,
) -> Result<(), OutOfMemory>
    ensures { OnOk result (text.new.items ≡ text.old.items ++ mesh_line faces mesh.now) }
{
    let mut said = Vec::new(alloc);
    put_mesh_text(faces, mesh, &mut said)?;
    said.extend_from_slice(b"; ")?;
    put_losses(mesh, &mut said)?;
    put_line(alloc, &said, text)
}

// Appends the lines of a mesh of so many faces.
fn put_mesh_lines(
    alloc: Global,
    format: OutputFormat,
    faces: u64,
    mesh: &OutputMesh,
    text: &mut Vec<u8>,
) -> Result<(), OutOfMemory>
    ensures { OnOk result (text.new.items ≡ text.old.items ++ mesh_lines format faces mesh.now) }
{
    put_empty(alloc, mesh, text)?;
    put_coarse(alloc, format, mesh, text)?;
    put_unpaired(alloc, format, mesh, text)?;
    put_mesh(alloc, faces, mesh, text)
}

// Appends the lines of the grid, of the files and of their volumes.
fn put_scene(
    alloc: Global,
    names: &[Text],
    grid: &Grid,
    counts: &[Counts],
    moves: &[Length],
    sixfold_volumes: &[i64],
    text: &mut Vec<u8>,
) -> Result<(), OutOfMemory>
    requires { IsStep grid.now.step }
    ensures { OnOk result
        (AddsScene names.now grid.now counts.now moves.now sixfold_volumes.now text.old text.new) }
{
    put_grid(alloc, grid, text)?;
    put_all_counts(alloc, names, counts, moves, text)?;
    put_volumes(alloc, names, &grid.step, sixfold_volumes, text)
}

// Appends the lines of the triangles on each file, and those of the mesh.
fn put_result(
    alloc: Global,
    request: &Request,
    output: &SolidFile,
    text: &mut Vec<u8>,
) -> Result<(), OutOfMemory>
    ensures { OnOk result (AddsResult request.now output.now text.old text.new) }
{
    let mesh = &output.written;
    let counts = told(mesh.triangles, &output.lying);
    put_on_files(alloc, request.files.items(), counts, mesh.triangles, text)?;
    put_mesh_lines(alloc, request.format, output.report.faces, mesh, text)
}

/// The report of an output; empty if the request wants none. It has a line for the grid, a line for
/// each file, one for the volume of each, which is a warning if the volume is below 0, one for the
/// triangles that lie on each, which is a warning if there are none, one that the result is empty, if
/// it is, warnings of a coarse rounding and of a text that isn't a 2-manifold, and one with the
/// numbers of the result.
pub fn report_of(
    alloc: Global,
    request: &Request,
    output: &SolidFile,
) -> Result<Vec<u8>, OutOfMemory>
    requires { IsStep output.now.grid.step }
    ensures { IfOk result (λ text. text.items ≡ report_of request.now output.now) }
{
    let mut text = Vec::new(alloc);
    if request.quiet {
        return Ok(text);
    }
    let names = request.files.items();
    put_scene(
        alloc,
        names,
        &output.grid,
        &output.counts,
        &output.moves,
        &output.sixfold_volumes,
        &mut text,
    )?;
    put_result(alloc, request, output, &mut text)?;
    Ok(text)
}

/// The report of placed files, unless the request wants none: a line for the grid, a line for each
/// file, and one for the volume of each, which is a warning if the volume is below 0.
pub fn snap_report(
    alloc: Global,
    request: &SnapRequest,
    placed: &PlacedScene,
) -> Result<Vec<u8>, OutOfMemory>
    requires { IsStep placed.now.grid.step }
    ensures { IfOk result (λ text. text.items ≡ snap_report request.now placed.now) }
{
    let mut text = Vec::new(alloc);
    if request.quiet {
        return Ok(text);
    }
    let names = request.files.items();
    let sixfold_volumes = sixfold_volumes_of_meshes(alloc, &placed.scene)?;
    put_scene(
        alloc,
        names,
        &placed.grid,
        &placed.counts,
        &placed.moves,
        &sixfold_volumes,
        &mut text,
    )?;
    Ok(text)
}

/// The report of a document's mesh, unless the request wants none: that it is empty, if it is, the
/// same warnings, and its numbers.
pub fn export_report(
    alloc: Global,
    request: &ExportRequest,
    mesh: &OutputMesh,
) -> Result<Vec<u8>, OutOfMemory>
    ensures { IfOk result (λ text. text.items ≡ export_report request.now mesh.now) }
{
    let mut text = Vec::new(alloc);
    if request.quiet {
        return Ok(text);
    }
    put_mesh_lines(alloc, request.format, mesh.faces, mesh, &mut text)?;
    Ok(text)
}
