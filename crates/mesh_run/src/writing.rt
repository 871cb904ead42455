// What the target and the two streams get.
ghost use Rattle.std.specs.Prelude.{◌≡◌, ◌≤◌, false, None, IfOk, IfErr, OnOk, OnErr};
ghost use Rattle.mesh_outside.specs.Target.Several.{PutsEach, names_and_bytes};
ghost use Rattle.ember_io.specs.Calls.{TakesUntilFault, sink_seen};
ghost use Rattle.mesh_run.specs.Calls.{HoldsAll, IsSaid, target_seen};
ghost use Rattle.mesh_refusal.specs.Said.{memory_said};
ghost use Rattle.mesh_run.specs.Memory.{hides_memory};
ghost use Rattle.mesh_run.specs.Serves.{AreSent, IsMessageOutcome, SaysMemory};
ghost use Rattle.mesh_run.specs.Unmet.{IsUnwrittenStatus, IsWriteStop};

use ember_io::{Sink, write_all};
use ember_model::OutOfMemory;
use ember_words::Text;
use mesh_outside::{NamedFile, Target, WriteEnd, write_each};
use mesh_refusal::{Status, memory_said, output_said};
use std::alloc::Global;

/// What is left to do once the files of a mesh are written: the mesh goes to standard output, if
/// there are bytes, and then the report to standard error.
#[derive(Drop)]
pub struct Sending {
    pub sent: Option<Vec<u8>>,
    pub report: Vec<u8>,
}

/// Writes a text to err, up to its first fault, which changes nothing else.
pub fn say<E: Sink>(err: &mut E, text: &[u8])
    ensures { TakesUntilFault (sink_seen E.Sink err) text.now }
{
    let _ = write_all(err, text);
}

/// Writes what is said of out-of-memory to err. It allocates nothing.
pub fn say_out_of_memory<E: Sink>(json: bool, err: &mut E)
    ensures { TakesUntilFault (sink_seen E.Sink err) (memory_said json) }
{
    say(err, memory_said(json));
}

/// Writes bytes to `out`, or what is said of a failure to err.
pub fn write_bytes<O: Sink, E: Sink>(json: bool, out: &mut O, err: &mut E, bytes: &[u8]) -> Status
    ensures later { O.faults out.old ≤ O.faults out.new }
    ensures outcome { IsSaid (sink_seen E.Sink err)
        (IsMessageOutcome json bytes.now (sink_seen O.Sink out) result) }
    ensures memory { hides_memory result ≡ false }
{
    match write_all(out, bytes) {
        Ok(()) => {
            say(err, &[]);
            Status::Done
        }
        Err(_) => {
            say(err, output_said(json));
            Status::WriteFault
        }
    }
}

/// Writes a mesh to `out`, if it goes there, and then the report to err, or what is said of a failure.
pub fn send<O: Sink, E: Sink>(
    json: bool,
    out: &mut O,
    err: &mut E,
    sent: &Option<Vec<u8>>,
    report: &[u8],
) -> Status
    ensures later { O.faults out.old ≤ O.faults out.new }
    ensures outcome { IsSaid (sink_seen E.Sink err)
        (AreSent json sent.now report.now (sink_seen O.Sink out) result) }
    ensures memory { hides_memory result ≡ false }
{
    match sent {
        None => {
            say(err, report);
            Status::Done
        }
        Some(mesh) => match write_all(out, mesh) {
            Ok(()) => {
                say(err, report);
                Status::Done
            }
            Err(_) => {
                say(err, output_said(json));
                Status::WriteFault
            }
        },
    }
}

/// Writes what is said of a status to err. Without memory for this, out-of-memory is said, and is the
/// status then.
pub fn say_why<E: Sink>(
    json: bool,
    err: &mut E,
    status: Status,
    said: Result<Vec<u8>, OutOfMemory>,
) -> Status
    ensures said { IfOk said (λ text. (result ≡ status) × TakesUntilFault (sink_seen E.Sink err) text.items) }
    ensures memory { OnErr said (SaysMemory json (sink_seen E.Sink err) result) }
{
    match said {
        Ok(text) => {
            say(err, &text);
            status
        }
        Err(_) => {
            say_out_of_memory(json, err);
            Status::OutOfMemory
        }
    }
}

// Makes a folder, if one is named. If it can't be made, no file can be written there, and this is
// told of the first of them.
#[tactic(auto, using(crate::proofs::KeptNames::names_hold_the_same))]
fn make_folder<T: Target>(target: &mut T, folder: Option<&Text>)
    ensures begun { T.begun target.new ≡ T.begun target.old }
    ensures held { HoldsAll (target_seen T.Target target) }
    ensures later { T.faults target.old ≤ T.faults target.new }
{
    if let Some(folder) = folder {
        let _ = target.make_folder(folder.as_str());
    }
}

// The status of a file of this name that isn't written.
fn unwritten_status(alloc: Global, name: &str, why: WriteEnd) -> Status
    ensures { IsUnwrittenStatus name.now why result }
{
    match why {
        WriteEnd::WriteFault | WriteEnd::NamesTaken => match String::from_str(alloc, name) {
            Ok(name) => Status::NotWritten(name),
            Err(_) => Status::OutOfMemory,
        },
        WriteEnd::OutOfMemory => Status::OutOfMemory,
    }
}

/// Writes files to the target, each in its turn. The folder is made before, if one is named and it
/// isn't there. The error names the file that isn't written, or is out-of-memory.
pub fn write_files<T: Target>(
    alloc: Global,
    target: &mut T,
    folder: Option<&Text>,
    files: &[NamedFile],
) -> Result<(), Status>
    requires { T.begun target.old ≡ None }
    ensures none_begun { T.begun target.new ≡ None }
    ensures later { T.faults target.old ≤ T.faults target.new }
    ensures written { OnOk result (PutsEach (names_and_bytes files.now) (T.held target.old) (T.held target.new)) }
    ensures stop { IfErr result (IsWriteStop (names_and_bytes files.now) (target_seen T.Target target)) }
{
    make_folder(target, folder);
    match write_each(alloc, target, files) {
        Ok(()) => Ok(()),
        Err(file) => Err(unwritten_status(alloc, file.name, file.why)),
    }
}
