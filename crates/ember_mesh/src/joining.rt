// Meshes joined to a scene.
ghost use Rattle.std.specs.Prelude.{◌≡◌, ◌≤◌, ◌*◌, length, IfOk, IfErr};
ghost use Rattle.ember_mesh.specs.Joined.{triangles_of, AreNumbered, IsJoinFault};

use crate::fault::JoinFault;
use crate::states::{Closed, Parts};
use ember_model::{OutOfMemory, Scene, Tri, Tris};
use std::alloc::Global;

const MOST_TRIANGLES: u64 = 262_144;

fn count_triangles(parts: &[Closed]) -> u64
    requires { length parts.now ≤ 64 }
    ensures { result ≡ length (triangles_of parts.now) }
{
    let mut count = 0;
    for part in parts {
        count += part.tris.items().len() as u64;
    }
    count
}

fn all_triangles(alloc: Global, parts: &[Closed], count: usize) -> Result<Vec<Tri>, OutOfMemory>
    ensures { IfOk result (λ tris. tris.items ≡ triangles_of parts.now) }
{
    let mut tris = Vec::with_capacity(alloc, count)?;
    for part in parts {
        tris.extend_from_slice(part.tris.items())?;
    }
    Ok(tris)
}

/// The scene of the meshes' triangles, mesh after mesh. All triangles of the mesh with the index
/// `i` have the mesh number `i + 1`. More than 262,144 triangles are refused with their number.
pub fn join(alloc: Global, parts: Parts) -> Result<Scene, JoinFault>
    requires few { length parts ≤ 64 }
    requires numbered { AreNumbered 1 parts }
    ensures tris { IfOk result (λ scene. scene.tris ≡ triangles_of parts) }
    ensures meshes { IfOk result (λ scene. scene.meshes ≡ length parts) }
    ensures fault { IfErr result (λ e. IsJoinFault parts e) }
{
    let parts = parts.into_vec();
    let count = count_triangles(&parts);
    if count > MOST_TRIANGLES {
        return Err(JoinFault::TooManyTriangles(count));
    }
    let tris = all_triangles(alloc, &parts, count as usize)?;
    Ok(Scene::of(Tris::of(tris), parts.len() as u32))
}
