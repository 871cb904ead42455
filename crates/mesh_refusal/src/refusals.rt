// The statuses of files that give no output.
ghost use Rattle.std.specs.Prelude.{◌≡◌, ◌<◌, ◌≤◌, length, slice_get, Some, All, IfOk, string_bytes};
ghost use Rattle.mesh_boolean.specs.Files.{IsSmall};
ghost use Rattle.mesh_file.specs.File.Faults.{fault_of};
ghost use Rattle.mesh_file.specs.File.Reasons.{reason_of};
ghost use Rattle.mesh_refusal.specs.Statuses.{IsRefusalStatus, IsUnplaceableStatus, IsStatusOf, NamesFile};

use crate::placings::image_reason;
use crate::status::Status;
use mesh_boolean::{BooleanFault, InputFile};
use mesh_file::{FileFault, format_of, put_reason};
use mesh_placing::ImageFault;
use mesh_scene::{Open, SceneFault};
use std::alloc::{AllocError, Global};

// Why a file is refused for this fault.
fn reason_in(alloc: Global, file: &InputFile, fault: &FileFault) -> Result<String, AllocError>
    ensures { IfOk result (λ reason. string_bytes reason ≡
        reason_of file.now.bytes.now (fault_of fault.now)) }
{
    let mut reason = String::new(alloc);
    put_reason(file.bytes, fault, &mut reason)?;
    Ok(reason)
}

// The file with this index.
fn file_at<'a>(files: &[InputFile<'a>], index: u32) -> InputFile<'a>
    requires { index < length files.now }
    ensures { slice_get files.now index ≡ Some result }
{
    files[index as usize]
}

// The file with this index is refused for this fault.
fn refused(alloc: Global, files: &[InputFile], index: u32, fault: &FileFault) -> Status
    requires few { length files.now ≤ 64 }
    requires there { index < length files.now }
    ensures { IsRefusalStatus files.now index fault.now result }
{
    let file = file_at(files, index);
    match reason_in(alloc, &file, fault) {
        Ok(reason) => Status::FileRefused(index + 1, reason),
        Err(_) => Status::OutOfMemory,
    }
}

// The file with this index is refused since it is no mesh where it is placed.
fn unplaceable(alloc: Global, index: u32, fault: &ImageFault) -> Status
    requires { index < 64 }
    ensures { IsUnplaceableStatus index fault.now result }
{
    match image_reason(alloc, fault) {
        Ok(why) => Status::FileRefused(index + 1, why),
        Err(_) => Status::OutOfMemory,
    }
}

// A file isn't closed.
fn not_closed(files: &[InputFile], fault: Open) -> Status
    requires small { All IsSmall files.now }
    requires there { fault.file < length files.now }
    ensures { IsStatusOf files.now (BooleanFault.Scene (SceneFault.Open fault)) result }
{
    let file = files[fault.file as usize];
    Status::NotClosed(fault, format_of(file.name, file.bytes))
}

/// The status of files with this fault: a file has an index in the fault, and in the status a
/// number from 1.
pub fn status_of<'a>(alloc: Global, files: &[InputFile<'a>], fault: BooleanFault<'a>) -> Status
    requires few { length files.now ≤ 64 }
    requires small { All IsSmall files.now }
    requires there { NamesFile files.now fault }
    ensures { IsStatusOf files.now fault.entry result }
{
    match fault {
        BooleanFault::File(index, fault) => refused(alloc, files, index, &fault),
        BooleanFault::Image(index, fault) => unplaceable(alloc, index, &fault),
        BooleanFault::Scene(SceneFault::NoTriangles) => Status::NoTriangles,
        BooleanFault::Scene(SceneFault::StepTooSmall(extent)) => Status::StepTooSmall(extent),
        BooleanFault::Scene(SceneFault::Open(fault)) => not_closed(files, fault),
        BooleanFault::Scene(SceneFault::TooManyTriangles(count)) => Status::TooManyTriangles(count),
        BooleanFault::Scene(SceneFault::OutOfMemory) => Status::OutOfMemory,
        BooleanFault::Solid(fault) => Status::Uncertified(fault),
        BooleanFault::TooFar => Status::TooFar,
        BooleanFault::TooManyTriangles => Status::TooManyWritten,
        BooleanFault::OutOfMemory => Status::OutOfMemory,
    }
}
