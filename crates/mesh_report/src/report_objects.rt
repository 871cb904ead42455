// The report as an object of JSON.
ghost use Rattle.std.specs.Prelude.{◌≡◌, ◌++◌, ◌<◌, drop, decimal, map, IfOk, OnOk};
ghost use Rattle.std.specs.Fmt.{signed_decimal};
ghost use Rattle.mesh_grid.specs.Moves.Shown.{rounded_of};
ghost use Rattle.mesh_grid.specs.Snap.Steps.{IsStep};
ghost use Rattle.mesh_texts.specs.Texts.{size_text, step_text};
ghost use Rattle.mesh_texts.specs.Objects.{array, texts_of};
ghost use Rattle.mesh_report.specs.ReportObjects.{AreFileObjects, IsFilesValue, coarse_warning, file_object, first_volume, manifold_value, mesh_object, mesh_warnings, offset_value, result_object, scene_object, solid_object, solid_warnings, turned_warning, turned_warnings, unpaired_warning, volume_value};
ghost use Rattle.mesh_report.specs.Lying.{AddsTexts, told};
ghost use Rattle.mesh_report.specs.Reports.{rounding_text};

use crate::lying::{numbers, put_missed_warnings, told};
use crate::report::{is_text, is_unpaired, move_at, put_coarse_text, put_unpaired_text};
use crate::volumes::{put_turned, put_volume, volume_at};
use ember_model::OutOfMemory;
use ember_words::Text;
use mesh_boolean::{OutputMesh, SolidFile, sixfold_volumes_of_meshes};
use mesh_effect::put_move as put_rounding_move;
use mesh_grid::{Grid, GridStep, Length};
use mesh_scene::{Counts, PlacedScene};
use mesh_texts::{
    array, keyed, number, object, object_line, put_signed, put_size, put_step, string, truth_value,
};
use mesh_words::OutputFormat;
use std::alloc::Global;

// ---- numbers
fn step_value(alloc: Global, step: &GridStep) -> Result<Vec<u8>, OutOfMemory>
    requires { 0 < step.now.denominator }
    ensures { IfOk result (λ text. text.items ≡ step_text step.now) }
{
    let mut text = Vec::new(alloc);
    put_step(step, &mut text)?;
    Ok(text)
}

fn signed(alloc: Global, number: i128) -> Result<Vec<u8>, OutOfMemory>
    ensures { IfOk result (λ text. text.items ≡ signed_decimal number) }
{
    let mut text = Vec::new(alloc);
    put_signed(number, &mut text)?;
    Ok(text)
}

fn offset_value(alloc: Global, grid: &Grid) -> Result<Vec<u8>, OutOfMemory>
    ensures { IfOk result (λ text. text.items ≡ offset_value grid.now) }
{
    let x = signed(alloc, grid.offset.x)?;
    let y = signed(alloc, grid.offset.y)?;
    let z = signed(alloc, grid.offset.z)?;
    array(alloc, &[x, y, z])
}

fn move_value(alloc: Global, moved: &Length) -> Result<Vec<u8>, OutOfMemory>
    ensures { IfOk result (λ text. text.items ≡ size_text (rounded_of moved.now).size (rounded_of moved.now).places) }
{
    let mut text = Vec::new(alloc);
    put_size(moved.size, moved.places, &mut text)?;
    Ok(text)
}

fn rounding_value(alloc: Global, mesh: &OutputMesh) -> Result<Vec<u8>, OutOfMemory>
    ensures { IfOk result (λ text. text.items ≡ rounding_text mesh.now) }
{
    let mut text = Vec::new(alloc);
    put_rounding_move(&mesh.effect.greatest, &mut text)?;
    Ok(text)
}

// A volume, or null if it is too large to be shown.
fn volume_value(alloc: Global, sixfold_volume: i64, step: &GridStep) -> Result<Vec<u8>, OutOfMemory>
    requires { IsStep step.now }
    ensures { IfOk result (λ text. text.items ≡ volume_value step.now sixfold_volume) }
{
    let mut text = Vec::new(alloc);
    put_volume(sixfold_volume, step, &mut text)?;
    if text.as_slice() == b"?".as_slice() {
        return Vec::from_slice(alloc, b"null");
    }
    Ok(text)
}

// ---- the files
// The volume with this index, or null if there is none.
fn volume_of(
    alloc: Global,
    sixfold_volumes: &[i64],
    index: usize,
    step: &GridStep,
) -> Result<Vec<u8>, OutOfMemory>
    requires { IsStep step.now }
    ensures { IfOk result (λ text. text.items ≡ first_volume step.now (drop index sixfold_volumes.now)) }
{
    if index >= sixfold_volumes.len() {
        return Vec::from_slice(alloc, b"null");
    }
    volume_value(alloc, volume_at(sixfold_volumes, index), step)
}

// The object of a file.
fn file_object(
    alloc: Global,
    name: &[u8],
    counts: &Counts,
    moved: &Length,
    volume: Vec<u8>,
) -> Result<Vec<u8>, OutOfMemory>
    ensures { IfOk result (λ text. text.items ≡
        file_object name.now counts.now (rounded_of moved.now) volume.items) }
{
    let name = string(alloc, name)?;
    let triangles = number(alloc, counts.triangles)?;
    let vanished = number(alloc, counts.vanished)?;
    let flat = number(alloc, counts.flat)?;
    let moved = move_value(alloc, moved)?;
    let members = [
        keyed(b"file", name),
        keyed(b"triangles", triangles),
        keyed(b"vanished", vanished),
        keyed(b"without area", flat),
        keyed(b"greatest move", moved),
        keyed(b"volume", volume),
    ];
    object(alloc, &members)
}

// The object of each file.
fn file_objects(
    alloc: Global,
    names: &[Text],
    step: &GridStep,
    counts: &[Counts],
    moves: &[Length],
    sixfold_volumes: &[i64],
) -> Result<Vec<Vec<u8>>, OutOfMemory>
    requires { IsStep step.now }
    ensures { IfOk result
        (AreFileObjects names.now step.now counts.now moves.now sixfold_volumes.now) }
{
    let mut texts = Vec::new(alloc);
    let mut file = 0;
    for name in names {
        let Some(counts) = counts.get(file) else {
            return Ok(texts);
        };
        let name = name.as_str().as_bytes();
        let moved = move_at(moves, file);
        let volume = volume_of(alloc, sixfold_volumes, file, step)?;
        let object = file_object(alloc, name, counts, &moved, volume)?;
        texts.push(object)?;
        file += 1;
    }
    Ok(texts)
}

fn files_value(
    alloc: Global,
    names: &[Text],
    step: &GridStep,
    counts: &[Counts],
    moves: &[Length],
    sixfold_volumes: &[i64],
) -> Result<Vec<u8>, OutOfMemory>
    requires { IsStep step.now }
    ensures { IfOk result
        (IsFilesValue names.now step.now counts.now moves.now sixfold_volumes.now) }
{
    let texts = file_objects(alloc, names, step, counts, moves, sixfold_volumes)?;
    array(alloc, &texts)
}

// ---- the result
// Whether a text is a 2-manifold, or null for another format.
fn manifold_value(
    alloc: Global,
    format: OutputFormat,
    mesh: &OutputMesh,
) -> Result<Vec<u8>, OutOfMemory>
    ensures { IfOk result (λ text. text.items ≡ manifold_value format mesh.now) }
{
    if !is_text(format) {
        return Vec::from_slice(alloc, b"null");
    }
    truth_value(alloc, mesh.is_manifold)
}

// The object of the mesh of so many faces.
fn result_object(
    alloc: Global,
    format: OutputFormat,
    faces: u64,
    mesh: &OutputMesh,
) -> Result<Vec<u8>, OutOfMemory>
    ensures { IfOk result (λ text. text.items ≡ result_object format faces mesh.now) }
{
    let facings = &mesh.effect.facings;
    let empty = truth_value(alloc, mesh.triangles == mesh.vanished)?;
    let faces = number(alloc, faces)?;
    let triangles = number(alloc, mesh.written)?;
    let planes = number(alloc, mesh.planes)?;
    let moved = rounding_value(alloc, mesh)?;
    let vanished = number(alloc, mesh.vanished)?;
    let without_area = number(alloc, facings.without_area)?;
    let turned_over = number(alloc, facings.turned_over)?;
    let shared = number(alloc, mesh.shared)?;
    let manifold = manifold_value(alloc, format, mesh)?;
    let members = [
        keyed(b"empty", empty),
        keyed(b"faces", faces),
        keyed(b"triangles", triangles),
        keyed(b"planes", planes),
        keyed(b"greatest rounding move", moved),
        keyed(b"vanished", vanished),
        keyed(b"without area", without_area),
        keyed(b"turned over", turned_over),
        keyed(b"edges of more than two triangles", shared),
        keyed(b"2-manifold", manifold),
    ];
    object(alloc, &members)
}

// ---- warnings
// Appends that a file may be inside out, if its volume is below 0. Files are numbered from 1.
fn put_turned_warning(
    alloc: Global,
    number: u64,
    name: &[u8],
    sixfold_volume: i64,
    step: &GridStep,
    texts: &mut Vec<Vec<u8>>,
) -> Result<(), OutOfMemory>
    requires { IsStep step.now }
    ensures { OnOk result
        (AddsTexts (turned_warning number name.now step.now sixfold_volume) texts.old texts.new) }
{
    if sixfold_volume >= 0 {
        return Ok(());
    }
    let mut said = Vec::new(alloc);
    put_turned(number, name, sixfold_volume, step, &mut said)?;
    texts.push(string(alloc, &said)?)?;
    Ok(())
}

// The warnings of files that may be inside out.
fn turned_warnings(
    alloc: Global,
    names: &[Text],
    step: &GridStep,
    sixfold_volumes: &[i64],
) -> Result<Vec<Vec<u8>>, OutOfMemory>
    requires { IsStep step.now }
    ensures { IfOk result (λ texts. texts_of texts.items ≡
        turned_warnings 1 names.now step.now sixfold_volumes.now) }
{
    let mut texts = Vec::new(alloc);
    let mut file = 0;
    for name in names {
        if file >= sixfold_volumes.len() {
            return Ok(texts);
        }
        let of_file = volume_at(sixfold_volumes, file);
        file += 1;
        let name = name.as_str().as_bytes();
        put_turned_warning(alloc, file as u64, name, of_file, step, &mut texts)?;
    }
    Ok(texts)
}

// Appends that rounding moved corners far, if it did.
fn put_coarse_warning(
    alloc: Global,
    format: OutputFormat,
    mesh: &OutputMesh,
    texts: &mut Vec<Vec<u8>>,
) -> Result<(), OutOfMemory>
    ensures { OnOk result (texts_of texts.new.items ≡
        texts_of texts.old.items ++ coarse_warning format mesh.now) }
{
    if !mesh.effect.is_coarse {
        return Ok(());
    }
    let mut said = Vec::new(alloc);
    put_coarse_text(format, mesh, &mut said)?;
    texts.push(string(alloc, &said)?)?;
    Ok(())
}

// Appends that a text isn't a 2-manifold, if some edge of it doesn't have two triangles.
fn put_unpaired_warning(
    alloc: Global,
    format: OutputFormat,
    mesh: &OutputMesh,
    texts: &mut Vec<Vec<u8>>,
) -> Result<(), OutOfMemory>
    ensures { OnOk result (texts_of texts.new.items ≡
        texts_of texts.old.items ++ unpaired_warning format mesh.now) }
{
    if !is_unpaired(format, mesh) {
        return Ok(());
    }
    let mut said = Vec::new(alloc);
    put_unpaired_text(format, &mut said)?;
    texts.push(string(alloc, &said)?)?;
    Ok(())
}

// Appends the warnings of the mesh that is written.
fn put_mesh_warnings(
    alloc: Global,
    format: OutputFormat,
    mesh: &OutputMesh,
    texts: &mut Vec<Vec<u8>>,
) -> Result<(), OutOfMemory>
    ensures { OnOk result (texts_of texts.new.items ≡
        texts_of texts.old.items ++ mesh_warnings format mesh.now) }
{
    put_coarse_warning(alloc, format, mesh, texts)?;
    put_unpaired_warning(alloc, format, mesh, texts)
}

// All warnings of a Boolean.
fn solid_warnings(
    alloc: Global,
    names: &[Text],
    format: OutputFormat,
    output: &SolidFile,
) -> Result<Vec<Vec<u8>>, OutOfMemory>
    requires { IsStep output.now.grid.step }
    ensures { IfOk result (λ texts. texts_of texts.items ≡ solid_warnings names.now format output.now) }
{
    let mesh = &output.written;
    let counts = told(mesh.triangles, &output.lying);
    let step = &output.grid.step;
    let mut texts = turned_warnings(alloc, names, step, &output.sixfold_volumes)?;
    put_missed_warnings(alloc, names, counts, mesh.triangles, &mut texts)?;
    put_mesh_warnings(alloc, format, mesh, &mut texts)?;
    Ok(texts)
}

// The array of how many triangles lie on each file.
fn on_files_value(alloc: Global, output: &SolidFile) -> Result<Vec<u8>, OutOfMemory>
    ensures { IfOk result (λ text. text.items ≡
        array (map decimal (told output.now.written.triangles output.now.lying))) }
{
    let counts = told(output.written.triangles, &output.lying);
    let texts = numbers(alloc, counts)?;
    array(alloc, &texts)
}

// ---- reports
/// The report of a Boolean as an object: the grid, the files, the result, how much of it lies on each
/// file, and the warnings. It ends in a line feed.
pub fn solid_object(
    alloc: Global,
    names: &[Text],
    format: OutputFormat,
    output: &SolidFile,
) -> Result<Vec<u8>, OutOfMemory>
    requires { IsStep output.now.grid.step }
    ensures { IfOk result (λ text. text.items ≡ solid_object names.now format output.now) }
{
    let grid = &output.grid;
    let volumes = output.sixfold_volumes.as_slice();
    let step = step_value(alloc, &grid.step)?;
    let offset = offset_value(alloc, grid)?;
    let files = files_value(
        alloc,
        names,
        &grid.step,
        &output.counts,
        &output.moves,
        volumes,
    )?;
    let result = result_object(alloc, format, output.report.faces, &output.written)?;
    let on_files = on_files_value(alloc, output)?;
    let texts = solid_warnings(alloc, names, format, output)?;
    let warnings = array(alloc, &texts)?;
    let members = [
        keyed(b"step", step),
        keyed(b"offset", offset),
        keyed(b"files", files),
        keyed(b"result", result),
        keyed(b"triangles on files", on_files),
        keyed(b"warnings", warnings),
    ];
    object_line(alloc, &members)
}

/// The report of placed files as an object: the grid, the files and the warnings. It ends in a line
/// feed.
pub fn scene_object(
    alloc: Global,
    names: &[Text],
    placed: &PlacedScene,
) -> Result<Vec<u8>, OutOfMemory>
    requires { IsStep placed.now.grid.step }
    ensures { IfOk result (λ text. text.items ≡ scene_object names.now placed.now) }
{
    let grid = &placed.grid;
    let sixfold_volumes = sixfold_volumes_of_meshes(alloc, &placed.scene)?;
    let volumes = sixfold_volumes.as_slice();
    let step = step_value(alloc, &grid.step)?;
    let offset = offset_value(alloc, grid)?;
    let files = files_value(
        alloc,
        names,
        &grid.step,
        &placed.counts,
        &placed.moves,
        volumes,
    )?;
    let texts = turned_warnings(alloc, names, &grid.step, volumes)?;
    let warnings = array(alloc, &texts)?;
    let members = [
        keyed(b"step", step),
        keyed(b"offset", offset),
        keyed(b"files", files),
        keyed(b"warnings", warnings),
    ];
    object_line(alloc, &members)
}

/// The report of a document's mesh as an object: the result and the warnings. It ends in a line feed.
pub fn mesh_object(
    alloc: Global,
    format: OutputFormat,
    mesh: &OutputMesh,
) -> Result<Vec<u8>, OutOfMemory>
    ensures { IfOk result (λ text. text.items ≡ mesh_object format mesh.now) }
{
    let result = result_object(alloc, format, mesh.faces, mesh)?;
    let mut texts = Vec::new(alloc);
    put_mesh_warnings(alloc, format, mesh, &mut texts)?;
    let warnings = array(alloc, &texts)?;
    let members = [keyed(b"result", result), keyed(b"warnings", warnings)];
    object_line(alloc, &members)
}
