// What is said of meshes.
ghost use Rattle.std.specs.Prelude.{◌≡◌, ◌≤◌, length, All, false, IfOk, IfErr};
ghost use Rattle.ember_model.specs.Limits.{most_bytes};
ghost use Rattle.ember_algebra.specs.Relations.{Each};
ghost use Rattle.mesh_boolean.specs.Files.{AreReadings};
ghost use Rattle.ember_io.specs.Calls.{KeepsContents, shelf_seen};
ghost use Rattle.mesh_run.specs.Calls.{streams_seen};
ghost use Rattle.mesh_run.specs.Causes.{IsReadingCause, IsRefusalCause};
ghost use Rattle.mesh_run.specs.Files.{IfTold};
ghost use Rattle.mesh_run.specs.Infos.{AreInfoLines, IsFileLine};
ghost use Rattle.mesh_run.specs.Memory.{hides_memory};
ghost use Rattle.mesh_run.specs.Serves.{ServesInfos};

use crate::reading::{input_files, read_contents};
use crate::writing::{say, say_out_of_memory, write_bytes};
use ember_io::{Shelf, Sink};
use ember_model::OutOfMemory;
use ember_words::{Text, Texts};
use mesh_boolean::{InputFile, surfaces_in};
use mesh_info::put_info;
use mesh_read::Surface;
use mesh_refusal::{Status, reading_said, status_of};
use std::alloc::Global;
use steal_pool::OpenGate;

// The line of each file, one after another.
#[tactic(auto, using(crate::proofs::InfoOutcomes::surfaces_are_as_many))]
fn info_lines(
    alloc: Global,
    files: &[InputFile],
    surfaces: &[Surface],
) -> Result<Vec<u8>, OutOfMemory>
    requires { AreReadings files.now surfaces.now }
    ensures { IfOk result (λ lines. Each IsFileLine files.now lines.items) }
{
    let mut lines = Vec::new(alloc);
    for (index, surface) in surfaces.iter().enumerate() {
        put_info(alloc, files[index].name, surface, &mut lines)?;
    }
    Ok(lines)
}

// The lines of files with these names and bytes.
fn infos_of_contents(alloc: Global, names: &[Text], contents: &[Vec<u8>]) -> Result<Vec<u8>, Status>
    requires few { length names.now ≤ 64 }
    requires one_each { length contents.now ≡ length names.now }
    requires small { All (λ bytes. length bytes.items ≤ most_bytes) contents.now }
    ensures lines { IfOk result (λ lines. IfTold names.now contents.now AreInfoLines lines.items) }
    ensures cause { IfErr result (IfTold names.now contents.now IsRefusalCause) }
{
    let made = input_files(alloc, names, contents)?;
    let files = made.as_slice();
    match surfaces_in(alloc, files, &OpenGate) {
        Ok(surfaces) => {
            let lines = info_lines(alloc, files, &surfaces)?;
            Ok(lines)
        }
        Err(fault) => Err(status_of(alloc, files, fault)),
    }
}

// The lines of the files with these names. The error is the status with which the call ends
// instead.
fn infos_in<S: Shelf>(alloc: Global, shelf: &mut S, names: &[Text]) -> Result<Vec<u8>, Status>
    requires { length names.now ≤ 64 }
    ensures contents { KeepsContents (shelf_seen S.Shelf shelf) }
    ensures lines { IfOk result (λ lines. AreInfoLines (S.contents shelf.old) names.now lines.items) }
    ensures cause { IfErr result (IsReadingCause names.now (shelf_seen S.Shelf shelf)) }
{
    match read_contents(alloc, shelf, names) {
        Ok(contents) => infos_of_contents(alloc, names, &contents),
        Err(status) => Err(status),
    }
}

/// Writes what is said of the meshes in these files to `out`, or what is said of the status to err. If
/// a file is refused, nothing is written to `out`.
pub fn serve_infos<S: Shelf, O: Sink, E: Sink>(
    alloc: Global,
    json: bool,
    names: &Texts,
    shelf: &mut S,
    out: &mut O,
    err: &mut E,
) -> Status
    requires { length names.now ≤ 64 }
    ensures contents { KeepsContents (shelf_seen S.Shelf shelf) }
    ensures later { O.faults out.old ≤ O.faults out.new }
    ensures outcome { ServesInfos json names.now
        (shelf_seen S.Shelf shelf) (streams_seen O.Sink E.Sink out err) result }
    ensures memory { hides_memory result ≡ false }
{
    match infos_in(alloc, shelf, names.items()) {
        Ok(lines) => write_bytes(json, out, err, &lines),
        Err(status) => match reading_said(alloc, json, names, &status) {
            Ok(text) => {
                say(err, &text);
                status
            }
            Err(_) => {
                say_out_of_memory(json, err);
                Status::OutOfMemory
            }
        },
    }
}
