// The files that a request gets.
ghost use Rattle.std.specs.Prelude.{◌≡◌, ◌≤◌, [], length, IfOk, IsSome, OnOk};
ghost use Rattle.mesh_info.specs.Page.Pages.{page_of};
ghost use Rattle.mesh_info.specs.Page.ReadBack.{IsReadBack};
ghost use Rattle.mesh_grid.specs.Snap.Steps.{IsStep};
ghost use Rattle.mesh_outside.specs.Target.Several.{names_and_bytes};
ghost use Rattle.mesh_words.specs.Folders.{document_name, scene_name};
ghost use Rattle.mesh_run.specs.Writes.{Adds, AddsFile, AddsFiles, AddsPage, AreKeptFiles, AreKeptFor, ArePageAndMesh, ArePages, AreSceneFiles, AreSolidFiles, mesh_file, mesh_file_at, mesh_files, numbers_in, sent_bytes, sent_to, title_at};

use ember_model::{OutOfMemory, Tri};
use ember_words::Text;
use mesh_boolean::{KeptDocument, OutputMesh, SolidFile};
use mesh_info::page_bytes;
use mesh_outside::NamedFile;
use mesh_scene::{PlacedScene, grid_mesh, scene_text};
use mesh_words::{Destination, Request, document_name, mesh_name, scene_name};
use mesh_write::FloatTriangle;
use std::alloc::Global;

/// The files of a mesh, and what of it goes to standard output.
#[derive(Drop)]
pub struct OutputFiles {
    pub files: Vec<NamedFile>,
    pub sent: Option<Vec<u8>>,
}

// Appends a file with this name and these bytes.
fn put_named(
    alloc: Global,
    name: &Text,
    bytes: Vec<u8>,
    files: &mut Vec<NamedFile>,
) -> Result<(), OutOfMemory>
    ensures { OnOk result (AddsFile (name.now, bytes.items) files.old files.new) }
{
    let name = String::from_str(alloc, name.as_str())?;
    files.push(NamedFile { name, bytes })?;
    Ok(())
}

// Appends the file of the grid in a folder.
fn put_grid(
    alloc: Global,
    folder: &Text,
    text: Vec<u8>,
    files: &mut Vec<NamedFile>,
) -> Result<(), OutOfMemory>
    ensures { OnOk result (AddsFile (scene_name folder.now, text.items) files.old files.new) }
{
    let name = scene_name(alloc, folder.as_str())?;
    files.push(NamedFile { name, bytes: text })?;
    Ok(())
}

// Appends the file of the document in a folder.
fn put_document(
    alloc: Global,
    folder: &Text,
    document: Vec<u8>,
    files: &mut Vec<NamedFile>,
) -> Result<(), OutOfMemory>
    ensures { OnOk result (AddsFile (document_name folder.now, document.items) files.old files.new) }
{
    let name = document_name(alloc, folder.as_str())?;
    files.push(NamedFile {
        name,
        bytes: document,
    })?;
    Ok(())
}

// Appends the file of a mesh on its grid.
fn put_mesh(
    alloc: Global,
    folder: &Text,
    tris: &[Tri],
    mesh: u32,
    files: &mut Vec<NamedFile>,
) -> Result<(), OutOfMemory>
    ensures { OnOk result (AddsFile (mesh_file folder.now tris.now mesh) files.old files.new) }
{
    let bytes = grid_mesh(alloc, tris, mesh)?;
    let name = mesh_name(alloc, folder.as_str(), mesh as usize)?;
    files.push(NamedFile { name, bytes })?;
    Ok(())
}

// Appends the files of the first meshes.
fn put_meshes(
    alloc: Global,
    folder: &Text,
    tris: &[Tri],
    meshes: u32,
    files: &mut Vec<NamedFile>,
) -> Result<(), OutOfMemory>
    ensures { OnOk result (AddsFiles (mesh_files folder.now tris.now meshes) files.old files.new) }
{
    for index in 0..meshes {
        put_mesh(alloc, folder, tris, index + 1, files)?;
    }
    Ok(())
}

// Appends the files of a scene: its meshes on their grid, and the grid.
fn put_scene(
    alloc: Global,
    folder: &Text,
    names: &[Text],
    placed: &PlacedScene,
    files: &mut Vec<NamedFile>,
) -> Result<(), OutOfMemory>
    requires few { length names.now ≤ 64 }
    requires step { IsStep placed.now.grid.step }
    requires counts { length placed.now.counts.items ≡ length names.now }
    requires moves { length placed.now.moves.items ≡ length names.now }
    ensures { OnOk result (Adds (AreSceneFiles folder.now names.now placed.now) files.old files.new) }
{
    put_meshes(
        alloc,
        folder,
        placed.scene.tris.items(),
        names.len() as u32,
        files,
    )?;
    let text = scene_text(alloc, &placed.grid, names, &placed.counts, &placed.moves)?;
    put_grid(alloc, folder, text, files)
}

/// The files of a scene in a folder: its meshes on their grid, and the grid.
pub fn scene_files(
    alloc: Global,
    folder: &Text,
    names: &[Text],
    placed: &PlacedScene,
) -> Result<Vec<NamedFile>, OutOfMemory>
    requires few { length names.now ≤ 64 }
    requires step { IsStep placed.now.grid.step }
    requires counts { length placed.now.counts.items ≡ length names.now }
    requires moves { length placed.now.moves.items ≡ length names.now }
    ensures { IfOk result (λ files. AreSceneFiles folder.now names.now placed.now (names_and_bytes files.items)) }
{
    let mut files = Vec::new(alloc);
    put_scene(alloc, folder, names, placed, &mut files)?;
    Ok(files)
}

// Appends the page that shows triangles under this title, and of which of the named files they are.
fn put_page(
    alloc: Global,
    page: &Text,
    title: &[u8],
    names: &[Text],
    shown: &[FloatTriangle],
    numbers: &[usize],
    files: &mut Vec<NamedFile>,
) -> Result<(), OutOfMemory>
    ensures is_page { OnOk result
        (AddsPage page.now title.now names.now shown.now numbers.now files.old files.new) }
    ensures read_back { OnOk result (IsReadBack shown.now numbers.now
        (page_of title.now names.now shown.now numbers.now)) }
{
    let bytes = page_bytes(alloc, title, names, shown, numbers)?;
    put_named(alloc, page, bytes, files)
}

// Appends the page of this name, if one is named, that shows triangles under this title.
fn put_pages(
    alloc: Global,
    page: &Option<Text>,
    title: &[u8],
    names: &[Text],
    shown: Option<Vec<FloatTriangle>>,
    numbers: &[usize],
    files: &mut Vec<NamedFile>,
) -> Result<(), OutOfMemory>
    requires { IsSome page.now → IsSome shown }
    ensures { OnOk result
        (Adds (ArePages page.now title.now names.now numbers.now shown) files.old files.new) }
{
    let Some(page) = page else {
        return Ok(());
    };
    let shown = shown.unwrap();
    put_page(alloc, page, title, names, &shown, numbers, files)
}

// What a page calls a mesh that goes there.
fn title_at(output: &Destination) -> &[u8]
    ensures { result.now ≡ title_at output.now }
{
    match output {
        Destination::File(name) => name.as_str().as_bytes(),
        Destination::StandardOutput => b"standard output",
    }
}

// Appends the file of a mesh, if it goes to one. Otherwise the bytes come back.
fn put_mesh_at(
    alloc: Global,
    output: &Destination,
    bytes: Vec<u8>,
    files: &mut Vec<NamedFile>,
) -> Result<Option<Vec<u8>>, OutOfMemory>
    ensures put { OnOk result (AddsFiles (mesh_file_at output.now bytes.items) files.old files.new) }
    ensures sent { IfOk result (λ sent. sent_bytes sent ≡ sent_to output.now bytes.items) }
{
    match output {
        Destination::File(name) => {
            put_named(alloc, name, bytes, files)?;
            Ok(None)
        }
        Destination::StandardOutput => Ok(Some(bytes)),
    }
}

// Appends the page that shows a mesh, if one is asked for, and the mesh, if it goes to a file.
// Otherwise the bytes of the mesh come back.
fn put_page_and_mesh(
    alloc: Global,
    page: &Option<Text>,
    names: &[Text],
    numbers: &[usize],
    output: &Destination,
    mesh: OutputMesh,
    files: &mut Vec<NamedFile>,
) -> Result<Option<Vec<u8>>, OutOfMemory>
    requires { IsSome page.now → IsSome mesh.shown }
    ensures put { OnOk result
        (Adds (ArePageAndMesh page.now names.now numbers.now output.now mesh) files.old files.new) }
    ensures sent { IfOk result (λ sent. sent_bytes sent ≡ sent_to output.now mesh.bytes.items) }
{
    let OutputMesh { bytes, shown, .. } = mesh;
    put_pages(alloc, page, title_at(output), names, shown, numbers, files)?;
    put_mesh_at(alloc, output, bytes, files)
}

/// The page that shows a mesh, if one is asked for, and the mesh, which goes to a file or to
/// standard output.
pub fn written_files(
    alloc: Global,
    page: &Option<Text>,
    output: &Destination,
    mesh: OutputMesh,
) -> Result<OutputFiles, OutOfMemory>
    requires { IsSome page.now → IsSome mesh.shown }
    ensures files { IfOk result (λ made.
        ArePageAndMesh page.now [] [] output.now mesh (names_and_bytes made.files.items)) }
    ensures sent { IfOk result (λ made. sent_bytes made.sent ≡ sent_to output.now mesh.bytes.items) }
{
    let mut files = Vec::new(alloc);
    let sent = put_page_and_mesh(alloc, page, &[], &[], output, mesh, &mut files)?;
    Ok(OutputFiles { files, sent })
}

// The numbers of files, if they are there.
fn numbers_in(shown_files: &Option<Vec<usize>>) -> &[usize]
    ensures { result.now ≡ numbers_in shown_files.now }
{
    match shown_files {
        Some(numbers) => numbers,
        None => &[],
    }
}

// Appends the files of a scene in a folder, and the document.
fn put_kept(
    alloc: Global,
    folder: &Text,
    names: &[Text],
    placed: &PlacedScene,
    document: Vec<u8>,
    files: &mut Vec<NamedFile>,
) -> Result<(), OutOfMemory>
    requires few { length names.now ≤ 64 }
    requires step { IsStep placed.now.grid.step }
    requires counts { length placed.now.counts.items ≡ length names.now }
    requires moves { length placed.now.moves.items ≡ length names.now }
    ensures { OnOk result
        (Adds (AreKeptFiles names.now placed.now document.items folder.now) files.old files.new) }
{
    put_scene(alloc, folder, names, placed, files)?;
    put_document(alloc, folder, document, files)
}

// The files of what is to be kept of an output, its mesh, and the files of the triangles that are
// shown.
fn kept_files(
    alloc: Global,
    request: &Request,
    output: SolidFile,
) -> Result<(Vec<NamedFile>, OutputMesh, Option<Vec<usize>>), OutOfMemory>
    requires few { length request.now.files ≤ 64 }
    requires step { IsStep output.grid.step }
    requires counts { length output.counts.items ≡ length request.now.files }
    requires moves { length output.moves.items ≡ length request.now.files }
    requires kept { IsSome request.now.keep → IsSome output.kept }
    ensures files { IfOk result (λ made. AreKeptFor request.now output (names_and_bytes made.0.items)) }
    ensures mesh { IfOk result (λ made. made.1 ≡ output.written) }
    ensures shown { IfOk result (λ made. made.2 ≡ output.shown_files) }
{
    let SolidFile {
        written,
        grid,
        counts,
        moves,
        shown_files,
        kept,
        ..
    } = output;
    let mut files = Vec::new(alloc);
    let Some(folder) = &request.keep else {
        return Ok((files, written, shown_files));
    };
    let KeptDocument { scene, document } = kept.unwrap();
    let placed = PlacedScene {
        grid,
        scene,
        counts,
        moves,
    };
    put_kept(
        alloc,
        folder,
        request.files.items(),
        &placed,
        document,
        &mut files,
    )?;
    Ok((files, written, shown_files))
}

/// The files of a Boolean: what is to be kept, the page that shows the solid, and the solid itself,
/// which goes to a file or to standard output.
pub fn solid_files(
    alloc: Global,
    request: &Request,
    output: SolidFile,
) -> Result<OutputFiles, OutOfMemory>
    requires few { length request.now.files ≤ 64 }
    requires step { IsStep output.grid.step }
    requires counts { length output.counts.items ≡ length request.now.files }
    requires moves { length output.moves.items ≡ length request.now.files }
    requires kept { IsSome request.now.keep → IsSome output.kept }
    requires shown { IsSome request.now.view → IsSome output.written.shown }
    ensures files { IfOk result (λ made. AreSolidFiles request.now output (names_and_bytes made.files.items)) }
    ensures sent { IfOk result (λ made.
        sent_bytes made.sent ≡ sent_to request.now.output output.written.bytes.items) }
{
    let (mut files, mesh, shown_files) = kept_files(alloc, request, output)?;
    let sent = put_page_and_mesh(
        alloc,
        &request.view,
        request.files.items(),
        numbers_in(&shown_files),
        &request.output,
        mesh,
        &mut files,
    )?;
    Ok(OutputFiles { files, sent })
}
