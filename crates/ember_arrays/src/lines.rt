// The statuses and lines of meshes in arrays: those of ember-mesh for the PLY files that hold them, which are
// called `mesh 1`, `mesh 2`, ..
ghost use Rattle.std.specs.Prelude.{◌≡◌, ◌<◌, ◌≤◌, [], IfOk, string_bytes};
ghost use Rattle.mesh_file.specs.File.Faults.{fault_of};
ghost use Rattle.mesh_file.specs.File.Reasons.{reason_of};
ghost use Rattle.mesh_refusal.specs.Lines.{IsShown};
ghost use Rattle.ember_arrays.specs.Lines.{IsRefusalStatus, IsStatusOf, NamesMesh, name_of, names_to, request_with, status_text};

use ember_words::{Text, Texts};
use mesh_boolean::BooleanFault;
use mesh_file::{FileFault, Format, put_reason};
use mesh_refusal::{Status, solid_said, words_said};
use mesh_scene::SceneFault;
use mesh_words::{Destination, OutputFormat, Request, WantedStep};
use std::alloc::{AllocError, Global};

// Why a mesh is refused for this fault.
fn reason_in(alloc: Global, fault: &FileFault) -> Result<String, AllocError>
    ensures { IfOk result (λ reason. string_bytes reason ≡ reason_of [] (fault_of fault.now)) }
{
    let mut reason = String::new(alloc);
    put_reason(&[], fault, &mut reason)?;
    Ok(reason)
}

// The mesh with this index is refused for this fault.
fn refused(alloc: Global, index: u32, fault: &FileFault) -> Status
    requires { index < 64 }
    ensures { IsRefusalStatus index fault.now result }
{
    match reason_in(alloc, fault) {
        Ok(reason) => Status::FileRefused(index + 1, reason),
        Err(_) => Status::OutOfMemory,
    }
}

// The status of meshes with this fault.
pub(crate) fn status_of(alloc: Global, fault: BooleanFault) -> Status
    requires { NamesMesh 64 fault }
    ensures { IsStatusOf fault.entry result }
{
    match fault {
        BooleanFault::File(index, fault) => refused(alloc, index, &fault),
        BooleanFault::Image(_, _) => unreachable!(),
        BooleanFault::Scene(SceneFault::NoTriangles) => Status::NoTriangles,
        BooleanFault::Scene(SceneFault::StepTooSmall(extent)) => Status::StepTooSmall(extent),
        BooleanFault::Scene(SceneFault::Open(fault)) => Status::NotClosed(fault, Format::Ply),
        BooleanFault::Scene(SceneFault::TooManyTriangles(count)) => Status::TooManyTriangles(count),
        BooleanFault::Scene(SceneFault::OutOfMemory) => Status::OutOfMemory,
        BooleanFault::Solid(fault) => Status::Uncertified(fault),
        BooleanFault::TooFar => Status::TooFar,
        BooleanFault::TooManyTriangles => Status::TooManyWritten,
        BooleanFault::OutOfMemory => Status::OutOfMemory,
    }
}

// The name of the mesh with this number.
fn name_of(alloc: Global, number: u32) -> Result<Text, AllocError>
    ensures { IfOk result (λ name. name ≡ name_of number) }
{
    let name = format!(in alloc; "mesh {number}")?;
    Ok(Text::of(name))
}

// The names of so many meshes.
fn names_of(alloc: Global, count: u32) -> Result<Texts, AllocError>
    requires { count ≤ 64 }
    ensures { IfOk result (λ names. names ≡ names_to count) }
{
    let mut names = Vec::with_capacity(alloc, count as usize)?;
    for number in 0..count {
        names.push(name_of(alloc, number + 1)?)?;
    }
    Ok(Texts::of(names))
}

// The request of ember-mesh that asks for the same of so many files, as its lines see it: the expression isn't
// in them, and nothing is written.
pub(crate) fn request_of(
    alloc: Global,
    count: u32,
    step: WantedStep,
    digits: Option<u32>,
) -> Result<Request, AllocError>
    requires { count ≤ 64 }
    ensures { IfOk result (λ request. request ≡ request_with count step digits) }
{
    Ok(Request {
        expression: Text::of(String::new(alloc)),
        output: Destination::StandardOutput,
        format: OutputFormat::Off,
        step,
        workers: 1,
        quiet: false,
        digits,
        files: names_of(alloc, count)?,
        view: None,
        keep: None,
        places: Texts::of(Vec::new(alloc)),
        turns: Texts::of(Vec::new(alloc)),
    })
}

// The line of a status that isn't Done.
pub(crate) fn status_line(
    alloc: Global,
    request: &Request,
    status: &Status,
) -> Result<Vec<u8>, AllocError>
    requires { IsShown status.now }
    ensures { IfOk result (λ text. text.items ≡ status_text request.now status.now) }
{
    match status {
        Status::Words(why) => words_said(alloc, false, &[], *why),
        _ => solid_said(alloc, false, request, status),
    }
}
