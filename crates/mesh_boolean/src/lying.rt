// How many triangles of a solid lie on each mesh of a scene.
ghost use Rattle.std.specs.Prelude.{◌≡◌, All, IfOk};
ghost use Rattle.ember_model.specs.Meshes.{of_mesh};
ghost use Rattle.ember_model.specs.Valid.{IsValidPlane};
ghost use Rattle.mesh_solid.specs.Mesh.Asked.{IsThereIf};
ghost use Rattle.mesh_boolean.specs.Lying.{AreLyingCounts};

use ember_model::{OutOfMemory, Scene, Tri};
use mesh_solid::SolidMesh;
use mesh_sources::source_count;
use std::alloc::Global;

// The triangles of the mesh with this number.
fn triangles_of_mesh(alloc: Global, tris: &[Tri], mesh: u32) -> Result<Vec<Tri>, OutOfMemory>
    ensures { IfOk result (λ own. own.items ≡ of_mesh mesh tris.now) }
{
    let mut own = Vec::new(alloc);
    for t in tris {
        if t.mesh == mesh {
            own.push(*t)?;
        }
    }
    Ok(own)
}

// How many triangles of the solid lie on each mesh of the scene, in order: they have a source among
// its triangles.
fn lying_counts(alloc: Global, scene: &Scene, solid: &SolidMesh) -> Result<Vec<u64>, OutOfMemory>
    requires { All IsValidPlane solid.now.planes.items }
    ensures { IfOk result (λ counts.
        AreLyingCounts scene.now.tris scene.now.meshes solid.now counts.items) }
{
    let mut counts = Vec::with_capacity(alloc, scene.meshes as usize)?;
    for index in 0..scene.meshes {
        let own = triangles_of_mesh(alloc, scene.tris.items(), index + 1)?;
        let count = source_count(alloc, &own, &solid.corners, &solid.planes, &solid.triangles)?;
        counts.push(count)?;
    }
    Ok(counts)
}

/// How many triangles of the solid, before they are rounded, lie on each mesh of the scene, in order, if
/// it is wanted: they have a source among its triangles, as
/// [`source_count`](mesh_sources::source_count) says. The only error is out-of-memory.
pub fn lying_if(
    alloc: Global,
    is_wanted: bool,
    scene: &Scene,
    solid: &SolidMesh,
) -> Result<Option<Vec<u64>>, OutOfMemory>
    requires { All IsValidPlane solid.now.planes.items }
    ensures { IfOk result (IsThereIf is_wanted (λ it.
        AreLyingCounts scene.now.tris scene.now.meshes solid.now it.items)) }
{
    if !is_wanted {
        return Ok(None);
    }
    let counts = lying_counts(alloc, scene, solid)?;
    Ok(Some(counts))
}
