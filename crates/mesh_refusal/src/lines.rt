// Why a request isn't met.
ghost use Rattle.std.specs.Prelude.{◌≡◌, ◌++◌, ◌+◌, ◌<◌, decimal, OnOk};
ghost use Rattle.mesh_grid.specs.Snap.Steps.{IsStep};
ghost use Rattle.mesh_refusal.specs.Lines.{IsShown, expr_text, extent_text, file_text, not_closed_text, noun_of, not_found_text, open_text, place_text, reading_why, scene_why, solid_text, too_far_text, too_many_text, uncut_text, unreadable_text, why_of};

use crate::status::Status;
use ember_expr::ExprFault;
use ember_io::FaultKind;
use ember_model::OutOfMemory;
use ember_words::Texts;
use mesh_file::Format;
use mesh_grid::SceneExtent;
use mesh_scene::Open;
use mesh_solid::SolidFault;
use mesh_texts::{name_among, put_corner, put_count, put_length, put_step, put_value, wanted_text};
use mesh_triangles::TrianglesFault;
use mesh_words::{OutputFormat, Request, WantedStep};

const NO_GRID_STEP: &[u8] =
    b": no grid has this step; give at most 12 digits and 12 decimal places";

const NO_TRIANGLES: &[u8] = b"no triangles in the files; are they meshes?";

const LONG_FILE: &[u8] = b"more than 268435456 bytes; simplify the mesh";

const TOO_MANY: &[u8] = b" triangles after snapping, more than 262144; simplify the meshes";

const TOO_MANY_FOR_GLB: &[u8] =
    b"more than 4294967295 bytes, too many for GLB; simplify the meshes";

const TOO_MANY_FOR_STL: &[u8] =
    b"more than 4294967295 triangles, too many for STL; simplify the meshes";

const SCENE_IS: &[u8] = b": the scene is ";

const COARSER_STEP: &[u8] = b" long, which needs a step of at least ";

const TOO_FAR_FOR_STL: &[u8] =
    b"a corner of the result is too far from 0 for STL; move the meshes to the origin";

const TOO_FAR_FOR_GLB: &[u8] =
    b"a corner of the result is too far from 0 for GLB; move the meshes to the origin";

const TOO_FAR_FOR_DECIMALS: &[u8] =
    b"a corner of the result is 10^21 or more from 0; move the meshes to the origin";

// Appends a fault at a place of the expression.
fn put_place_fault(fault: &[u8], place: u32, text: &mut Vec<u8>) -> Result<(), OutOfMemory>
    ensures { OnOk result (text.new.items ≡ text.old.items ++ place_text fault.now place) }
{
    text.extend_from_slice(b"expression: ")?;
    text.extend_from_slice(fault)?;
    text.extend_from_slice(b" at ")?;
    put_count(u64::from(place), text)
}

fn put_expr_fault(fault: &ExprFault, text: &mut Vec<u8>) -> Result<(), OutOfMemory>
    ensures { OnOk result (text.new.items ≡ text.old.items ++ expr_text fault.now) }
{
    match fault {
        ExprFault::Syntax(place) => put_place_fault(b"syntax", *place, text),
        ExprFault::Deep(place) => put_place_fault(b"deep", *place, text),
        ExprFault::Number(place) => put_place_fault(b"number", *place, text),
        ExprFault::NoMesh(mesh) => {
            text.extend_from_slice(b"expression: no mesh ")?;
            put_count(u64::from(*mesh), text)
        }
        ExprFault::Long => text.extend_from_slice(b"expression: long"),
        ExprFault::OutOfMemory => text.extend_from_slice(b"out of memory"),
    }
}

/// Appends what is said of file `number`.
pub fn put_file(
    files: &Texts,
    number: u32,
    said: &[u8],
    text: &mut Vec<u8>,
) -> Result<(), OutOfMemory>
    ensures { OnOk result (text.new.items ≡ text.old.items ++ file_text files.now number said.now) }
{
    text.extend_from_slice(name_among(files, number))?;
    text.extend_from_slice(b": ")?;
    text.extend_from_slice(said)
}

/// What the number of a triangle's place counts.
pub fn noun_of(format: Format) -> &'static [u8]
    ensures { result.now ≡ noun_of format }
{
    match format {
        Format::BinaryStl => b"facet",
        Format::Ply => b"face",
        Format::Gltf => b"triangle",
        Format::AsciiStl | Format::Off | Format::CutOffStl | Format::Obj => b"line",
    }
}

// Appends how many edges of a mesh are loose, the first of them, and where.
fn put_open(fault: &Open, format: Format, text: &mut Vec<u8>) -> Result<(), OutOfMemory>
    requires { IsStep fault.now.grid.step }
    ensures { OnOk result (text.new.items ≡ text.old.items ++ open_text fault.now format) }
{
    text.extend_from_slice(b"not closed: ")?;
    put_count(fault.edges, text)?;
    text.extend_from_slice(b" loose edges, the first from ")?;
    put_corner(&fault.loose.from, &fault.grid, text)?;
    text.extend_from_slice(b" to ")?;
    put_corner(&fault.loose.to, &fault.grid, text)?;
    text.extend_from_slice(b", in ")?;
    text.extend_from_slice(noun_of(format))?;
    text.extend_from_slice(b" ")?;
    put_count(u64::from(fault.place), text)?;
    text.extend_from_slice(b"; close the hole in the modeller")
}

// Appends what is said of a file that isn't closed.
fn put_not_closed(
    files: &Texts,
    fault: &Open,
    format: Format,
    text: &mut Vec<u8>,
) -> Result<(), OutOfMemory>
    requires file { fault.now.file < 64 }
    requires step { IsStep fault.now.grid.step }
    ensures { OnOk result (text.new.items ≡
        text.old.items ++ not_closed_text files.now fault.now format) }
{
    put_file(files, fault.file + 1, b"", text)?;
    put_open(fault, format, text)
}

// Appends that one plane has no triangles, or that it isn't known which has none.
fn put_not_found(plane: Option<u32>, text: &mut Vec<u8>) -> Result<(), OutOfMemory>
    ensures { OnOk result (text.new.items ≡ text.old.items ++ not_found_text plane) }
{
    match plane {
        Some(plane) => {
            text.extend_from_slice(b"triangles of plane ")?;
            put_count(u64::from(plane), text)?;
            text.extend_from_slice(b" not found")
        }
        None => text.extend_from_slice(b"triangles of the result not found"),
    }
}

/// Appends that faces have no triangles.
pub fn put_uncut(fault: &TrianglesFault, text: &mut Vec<u8>) -> Result<(), OutOfMemory>
    ensures { OnOk result (text.new.items ≡ text.old.items ++ uncut_text fault.now) }
{
    match fault {
        TrianglesFault::NoTriangles(plane) => put_not_found(Some(*plane), text),
        _ => put_not_found(None, text),
    }
}

fn put_solid_fault(fault: &SolidFault, text: &mut Vec<u8>) -> Result<(), OutOfMemory>
    ensures { OnOk result (text.new.items ≡ text.old.items ++ solid_text fault.now) }
{
    match fault {
        SolidFault::NotCut(fault) => put_uncut(fault, text),
        _ => put_not_found(None, text),
    }
}

fn put_too_many(count: u64, text: &mut Vec<u8>) -> Result<(), OutOfMemory>
    ensures { OnOk result (text.new.items ≡ text.old.items ++ (decimal count ++ TOO_MANY.now)) }
{
    put_count(count, text)?;
    text.extend_from_slice(TOO_MANY)
}

// Appends that a step is too small, how long the scene is, and the finest step that would do.
fn put_extent(given: &[u8], extent: &SceneExtent, text: &mut Vec<u8>) -> Result<(), OutOfMemory>
    requires { 0 < extent.now.finest.denominator }
    ensures { OnOk result (text.new.items ≡ text.old.items ++ extent_text given.now extent.now) }
{
    put_value(b"--step ", given, SCENE_IS, text)?;
    put_length(extent, text)?;
    text.extend_from_slice(COARSER_STEP)?;
    put_step(&extent.finest, text)
}

/// Why a corner can't be written in this format.
pub fn too_far_text(format: OutputFormat) -> &'static [u8]
    ensures { result.now ≡ too_far_text format }
{
    match format {
        OutputFormat::Stl => TOO_FAR_FOR_STL,
        OutputFormat::Glb => TOO_FAR_FOR_GLB,
        OutputFormat::Obj | OutputFormat::Ply | OutputFormat::Off => TOO_FAR_FOR_DECIMALS,
    }
}

// That a file can't be read, with the reason if it is known.
fn unreadable_text(kind: FaultKind) -> &'static [u8]
    ensures { result.now ≡ unreadable_text kind }
{
    match kind {
        FaultKind::NotFound => b"cannot be read (No such file or directory)",
        FaultKind::Forbidden => b"cannot be read (Permission denied)",
        FaultKind::Folder => b"cannot be read (Is a directory)",
        FaultKind::Other => b"cannot be read",
    }
}

/// Appends why not all files are read, or why one isn't written.
pub fn put_reading_why(
    files: &Texts,
    status: &Status,
    text: &mut Vec<u8>,
) -> Result<(), OutOfMemory>
    ensures { OnOk result (text.new.items ≡ text.old.items ++ reading_why files.now status.now) }
{
    match status {
        Status::ReadFault(number, kind) => put_file(files, *number, unreadable_text(*kind), text),
        Status::FileRefused(number, reason) => put_file(files, *number, reason.as_bytes(), text),
        Status::LongFile(number) => put_file(files, *number, LONG_FILE, text),
        Status::NotWritten(name) => put_value(b"cannot write ", name.as_bytes(), b"", text),
        Status::OutOfMemory => text.extend_from_slice(b"out of memory"),
        Status::Done
        | Status::Words(_)
        | Status::StepOfNoGrid
        | Status::WriteFault
        | Status::NoTriangles
        | Status::NotAScene
        | Status::NotClosed(_, _)
        | Status::ExprRefused(_)
        | Status::Unbounded
        | Status::TooManyTriangles(_)
        | Status::TooManyWritten
        | Status::StepTooSmall(_)
        | Status::TooFar
        | Status::DocumentRefused(_)
        | Status::Uncertified(_) => Ok(()),
    }
}

/// That there are too many triangles for this format.
pub fn too_many_text(format: OutputFormat) -> &'static [u8]
    ensures { result.now ≡ too_many_text format }
{
    match format {
        OutputFormat::Glb => TOO_MANY_FOR_GLB,
        OutputFormat::Stl | OutputFormat::Obj | OutputFormat::Ply | OutputFormat::Off => {
            TOO_MANY_FOR_STL
        }
    }
}

/// Appends why files aren't put on their grid.
pub fn put_scene_why(
    files: &Texts,
    step: &WantedStep,
    status: &Status,
    text: &mut Vec<u8>,
) -> Result<(), OutOfMemory>
    requires { IsShown status.now }
    ensures { OnOk result (text.new.items ≡ text.old.items ++ scene_why files.now step.now status.now) }
{
    match status {
        Status::StepOfNoGrid => put_value(b"--step ", wanted_text(step), NO_GRID_STEP, text),
        Status::NoTriangles => text.extend_from_slice(NO_TRIANGLES),
        Status::NotClosed(fault, format) => put_not_closed(files, fault, *format, text),
        Status::TooManyTriangles(count) => put_too_many(*count, text),
        Status::StepTooSmall(extent) => put_extent(wanted_text(step), extent, text),
        _ => put_reading_why(files, status, text),
    }
}

/// Appends why a request isn't met.
pub fn put_why(request: &Request, status: &Status, text: &mut Vec<u8>) -> Result<(), OutOfMemory>
    requires { IsShown status.now }
    ensures { OnOk result (text.new.items ≡ text.old.items ++ why_of request.now status.now) }
{
    match status {
        Status::ExprRefused(fault) => put_expr_fault(fault, text),
        Status::Unbounded => text.extend_from_slice(b"expression holds outside all meshes"),
        Status::TooManyWritten => text.extend_from_slice(too_many_text(request.format)),
        Status::TooFar => text.extend_from_slice(too_far_text(request.format)),
        Status::Uncertified(fault) => put_solid_fault(fault, text),
        _ => put_scene_why(&request.files, &request.step, status, text),
    }
}
