// The page that shows meshes.
ghost use Rattle.std.specs.Prelude.{◌≡◌, ◌++◌, ◌≤◌, length, All, false, None, IfOk, IfErr, OnOk, codes};
ghost use Rattle.ember_model.specs.Limits.{most_bytes};
ghost use Rattle.mesh_info.specs.View.Views.{IsView};
ghost use Rattle.ember_io.specs.Calls.{KeepsContents, shelf_seen, sink_seen};
ghost use Rattle.mesh_run.specs.Calls.{files_seen, target_seen};
ghost use Rattle.mesh_run.specs.Causes.{IsReadingCause, IsRefusalCause};
ghost use Rattle.mesh_run.specs.Files.{IfTold};
ghost use Rattle.mesh_run.specs.Memory.{hides_memory};
ghost use Rattle.mesh_run.specs.Pages.{IsPageOf, title_of};
ghost use Rattle.mesh_run.specs.Serves.{IsPageUnmet, PutsPage, ServesView};

use crate::reading::{read_contents, surfaces_of};
use crate::writing::{say, say_why, write_files};
use ember_io::{Shelf, Sink};
use ember_model::OutOfMemory;
use ember_words::Text;
use mesh_info::view_of;
use mesh_outside::{NamedFile, Target};
use mesh_read::Surface;
use mesh_refusal::{Status, reading_said};
use mesh_words::ViewRequest;
use std::alloc::Global;

// Appends a name behind a comma.
fn put_behind(name: &Text, title: &mut Vec<u8>) -> Result<(), OutOfMemory>
    ensures { OnOk result (title.new.items ≡ title.old.items ++ (codes ", " ++ name.now)) }
{
    title.extend_from_slice(b", ")?;
    title.extend_from_slice(name.as_str().as_bytes())
}

// The names with commas between them.
fn title_of(alloc: Global, names: &[Text]) -> Result<Vec<u8>, OutOfMemory>
    ensures { IfOk result (λ title. title.items ≡ title_of names.now) }
{
    let mut title = Vec::new(alloc);
    if let Some((first, others)) = names.split_first() {
        title.extend_from_slice(first.as_str().as_bytes())?;
        for name in others {
            put_behind(name, &mut title)?;
        }
    }
    Ok(title)
}

// The page of surfaces under these names.
fn page_of(alloc: Global, names: &[Text], surfaces: &[Surface]) -> Result<Vec<u8>, OutOfMemory>
    ensures { IfOk result (λ page. IsView (title_of names.now) names.now surfaces.now page.items) }
{
    let title = title_of(alloc, names)?;
    view_of(alloc, &title, names, surfaces)
}

// The page of files with these names and bytes.
fn page_of_contents(alloc: Global, names: &[Text], contents: &[Vec<u8>]) -> Result<Vec<u8>, Status>
    requires few { length names.now ≤ 64 }
    requires one_each { length contents.now ≡ length names.now }
    requires small { All (λ bytes. length bytes.items ≤ most_bytes) contents.now }
    ensures page { IfOk result (λ page. IfTold names.now contents.now IsPageOf page.items) }
    ensures cause { IfErr result (IfTold names.now contents.now IsRefusalCause) }
{
    match surfaces_of(alloc, names, contents) {
        Ok(surfaces) => {
            let page = page_of(alloc, names, &surfaces)?;
            Ok(page)
        }
        Err(status) => Err(status),
    }
}

// The page of the files with these names. The error is the status with which the call ends instead.
fn page_in<S: Shelf>(alloc: Global, shelf: &mut S, names: &[Text]) -> Result<Vec<u8>, Status>
    requires { length names.now ≤ 64 }
    ensures contents { KeepsContents (shelf_seen S.Shelf shelf) }
    ensures page { IfOk result (λ page. IsPageOf (S.contents shelf.old) names.now page.items) }
    ensures cause { IfErr result (IsReadingCause names.now (shelf_seen S.Shelf shelf)) }
{
    match read_contents(alloc, shelf, names) {
        Ok(contents) => page_of_contents(alloc, names, &contents),
        Err(status) => Err(status),
    }
}

// Writes the page that a request asks for, or gives the status that says why it isn't written.
fn write_view<S: Shelf, T: Target>(
    alloc: Global,
    request: &ViewRequest,
    shelf: &mut S,
    target: &mut T,
) -> Result<(), Status>
    requires few { length request.now.files ≤ 64 }
    requires begun { T.begun target.old ≡ None }
    ensures contents { KeepsContents (shelf_seen S.Shelf shelf) }
    ensures none_begun { T.begun target.new ≡ None }
    ensures later { T.faults target.old ≤ T.faults target.new }
    ensures written { IfOk result
        (λ _. PutsPage request.now (shelf_seen S.Shelf shelf) (target_seen T.Target target)) }
    ensures stop { IfErr result
        (IsPageUnmet request.now (shelf_seen S.Shelf shelf) (target_seen T.Target target)) }
{
    let page = match page_in(alloc, shelf, request.files.items()) {
        Ok(page) => page,
        Err(status) => return Err(status),
    };
    let file = NamedFile {
        name: String::from_str(alloc, request.output.as_str())?,
        bytes: page,
    };
    write_files(alloc, target, None, &[file])
}

/// Writes the page that a request asks for, or what is said of the status to err.
pub fn serve_view<S: Shelf, T: Target, E: Sink>(
    alloc: Global,
    json: bool,
    request: &ViewRequest,
    shelf: &mut S,
    target: &mut T,
    err: &mut E,
) -> Status
    requires few { length request.now.files ≤ 64 }
    requires begun { T.begun target.old ≡ None }
    ensures contents { KeepsContents (shelf_seen S.Shelf shelf) }
    ensures none_begun { T.begun target.new ≡ None }
    ensures later { T.faults target.old ≤ T.faults target.new }
    ensures outcome { ServesView json request.now
        (files_seen S.Shelf T.Target shelf target) (sink_seen E.Sink err) result }
    ensures memory { hides_memory result ≡ false }
{
    match write_view(alloc, request, shelf, target) {
        Ok(()) => {
            say(err, &[]);
            Status::Done
        }
        Err(status) => {
            let said = reading_said(alloc, json, &request.files, &status);
            say_why(json, err, status, said)
        }
    }
}
