// The names of the files that are written into a folder.
ghost use Rattle.std.specs.Prelude.{◌≡◌, IfOk, string_bytes};
ghost use Rattle.mesh_words.specs.Folders.{mesh_name, mesh_names, scene_name, document_name, scene_names, kept_names};

use ember_words::Text;
use std::alloc::{AllocError, Global};

/// The name in a folder of the mesh with this number, from 1: `FOLDER/1.obj`.
pub fn mesh_name(alloc: Global, folder: &str, mesh: usize) -> Result<String, AllocError>
    ensures { IfOk result (λ name. string_bytes name ≡ mesh_name folder.now mesh) }
{
    format!(in alloc; "{folder}/{mesh}.obj")
}

/// The name of the grid in a folder: `FOLDER/scene.json`.
pub fn scene_name(alloc: Global, folder: &str) -> Result<String, AllocError>
    ensures { IfOk result (λ name. string_bytes name ≡ scene_name folder.now) }
{
    format!(in alloc; "{folder}/scene.json")
}

/// The name of the document in a folder: `FOLDER/doc.txt`.
pub fn document_name(alloc: Global, folder: &str) -> Result<String, AllocError>
    ensures { IfOk result (λ name. string_bytes name ≡ document_name folder.now) }
{
    format!(in alloc; "{folder}/doc.txt")
}

/// The names of the files that `snap` writes for this number of meshes.
pub fn scene_names(alloc: Global, folder: &str, meshes: usize) -> Result<Vec<Text>, AllocError>
    ensures { IfOk result (λ names. names.items ≡ scene_names folder.now meshes) }
{
    let mut names = Vec::new(alloc);
    for before in 0..meshes {
        names.push(Text::of(mesh_name(alloc, folder, before + 1)?))?;
    }
    names.push(Text::of(scene_name(alloc, folder)?))?;
    Ok(names)
}

/// The same of `--keep`.
pub fn kept_names(alloc: Global, folder: &str, meshes: usize) -> Result<Vec<Text>, AllocError>
    ensures { IfOk result (λ names. names.items ≡ kept_names folder.now meshes) }
{
    let mut names = scene_names(alloc, folder, meshes)?;
    names.push(Text::of(document_name(alloc, folder)?))?;
    Ok(names)
}
