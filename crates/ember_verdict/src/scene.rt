// The scene of several files: each is a closed mesh, and all together have few enough triangles.
// `after_x` is a step of the verdict (specs/Verdict.antt).
ghost use Rattle.std.specs.Prelude.{ℕ, ◌≡◌, ◌≢◌, ◌≤◌, length, All, Err, IfOk, IfErr};
ghost use Rattle.ember_mesh.specs.Joined.{AreNumbered, triangles_of};
ghost use Rattle.ember_verdict.specs.Held.{MayAllPassOn, MayPassOn};
ghost use Rattle.ember_verdict.specs.Scenes.{ArePartsOf};
ghost use Rattle.ember_verdict.specs.Statuses.{RefusesOnlyBy};
ghost use Rattle.ember_io.specs.Calls.{shelf_seen};
ghost use Rattle.ember_verdict.specs.NoReplies.{IsAfterFiles, IsNoFile, IsNoScene};
ghost use Rattle.ember_verdict.specs.Verdict.{PassesOn, after_mesh, after_scene, after_total};

use crate::reading::read_file;
use crate::status::{LimitKind, Status};
use ember_io::Shelf;
use ember_mesh::{Closed, JoinFault, MeshFault, Parts, balanced, check, join};
use ember_model::Scene;
use ember_words::Text;
use std::alloc::Global;

// The closed mesh of the file with this number, from 1.
#[tactic(auto, using(crate::proofs::SceneFiles::mesh_held, crate::proofs::NoFiles::loose_is_no_file, crate::proofs::NoFiles::memory_is_no_file))]
fn read_mesh<S: Shelf>(
    alloc: Global,
    shelf: &mut S,
    name: &str,
    number: u32,
    places: u8,
) -> Result<Closed, Status>
    requires { places ≤ 3 }
    ensures contents { S.contents shelf.new ≡ S.contents shelf.old }
    ensures later { S.faults shelf.old ≤ S.faults shelf.new }
    ensures read { IfOk result (λ mesh.
        MayPassOn (after_mesh places number) (S.contents shelf.old name.now) mesh.tris) }
    ensures number { IfOk result (λ mesh. All (λ t. t.mesh ≡ number) mesh.tris) }
    ensures no_file { IfErr result (IsNoFile (after_mesh places number) number name.now (shelf_seen S.Shelf shelf)) }
{
    let soup = read_file(alloc, shelf, name, number, places)?;
    // `check` tests nothing: `read_file` has counted the triangles. `balanced` is the test.
    match balanced(alloc, check(soup)) {
        Ok(mesh) => Ok(mesh),
        Err((_, MeshFault::Unbalanced(loose))) => {
            Err(Status::MeshRefused(number, MeshFault::Unbalanced(loose)))
        }
        Err((_, MeshFault::OutOfMemory)) => Err(Status::OutOfMemory),
    }
}

// The closed meshes of the files, in order.
fn read_parts<S: Shelf>(
    alloc: Global,
    shelf: &mut S,
    files: &[Text],
    places: u8,
) -> Result<Vec<Closed>, Status>
    requires places { places ≤ 3 }
    requires few { length files.now ≤ 64 }
    ensures contents { S.contents shelf.new ≡ S.contents shelf.old }
    ensures later { S.faults shelf.old ≤ S.faults shelf.new }
    ensures parts { IfOk result (ArePartsOf places files.now (S.contents shelf.old)) }
    ensures no_reply { IfErr result (IsNoScene places files.now (shelf_seen S.Shelf shelf)) }
{
    let mut parts = Vec::new(alloc);
    let mut number = 1;
    for file in files {
        let part = match read_mesh(alloc, shelf, file.as_str(), number, places) {
            Ok(part) => part,
            Err(status) => return Err(status),
        };
        parts.push(part)?;
        number += 1;
    }
    Ok(parts)
}

// Joins the meshes into a scene, and refuses them if they have too many triangles.
#[tactic(auto, using(crate::proofs::SceneFiles::few_joined, crate::proofs::SceneFiles::many_refused, crate::proofs::NoReplies::triangles_after, crate::proofs::NoReplies::memory_after))]
fn join_parts(alloc: Global, parts: Vec<Closed>) -> Result<Scene, Status>
    requires few { length parts.items ≤ 64 }
    requires numbered { AreNumbered 1 parts.items }
    ensures scene { IfOk result (λ scene. PassesOn (after_total (triangles_of parts.items)) scene.tris) }
    ensures meshes { IfOk result (λ scene. scene.meshes ≡ length parts.items) }
    ensures refused { IfErr result (RefusesOnlyBy (after_total (triangles_of parts.items))) }
    ensures kind { IfErr result IsAfterFiles }
    ensures no_read_fault { (i : ℕ) → result ≢ Err (Status.ReadFault i) }
    ensures never { (result ≢ Err Status.Done) × (result ≢ Err Status.Words) × (result ≢ Err Status.WriteFault) }
{
    match join(alloc, Parts::of(parts)) {
        Ok(scene) => Ok(scene),
        Err(JoinFault::TooManyTriangles(count)) => {
            Err(Status::Limit(LimitKind::Triangles, count))
        }
        Err(JoinFault::OutOfMemory) => Err(Status::OutOfMemory),
    }
}

/// The scene of the files, in order. `places` is at most 3, and there are at most 64 files. The
/// error is the status: a file can't be read or is refused, its mesh isn't closed, all together
/// have too many triangles, or out-of-memory.
///
/// A file is opened only if no file before it is refused, and its text is dropped before the next
/// one is read.
pub fn read_scene<S: Shelf>(
    alloc: Global,
    shelf: &mut S,
    files: &[Text],
    places: u8,
) -> Result<Scene, Status>
    requires places { places ≤ 3 }
    requires few { length files.now ≤ 64 }
    ensures contents { S.contents shelf.new ≡ S.contents shelf.old }
    ensures later { S.faults shelf.old ≤ S.faults shelf.new }
    ensures read { IfOk result (λ scene.
        MayAllPassOn (after_scene places) files.now (S.contents shelf.old) scene.tris) }
    ensures meshes { IfOk result (λ scene. scene.meshes ≡ length files.now) }
    ensures no_reply { IfErr result (IsNoScene places files.now (shelf_seen S.Shelf shelf)) }
{
    let parts = read_parts(alloc, shelf, files, places)?;
    join_parts(alloc, parts)
}
