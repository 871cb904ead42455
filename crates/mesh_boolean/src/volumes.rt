// The volumes of meshes on their grid.
ghost use Rattle.std.specs.Prelude.{◌≡◌, ◌≤◌, All, length, IfOk};
ghost use Rattle.ember_algebra.specs.Size.{Small};
ghost use Rattle.ember_model.specs.Limits.{support_constant_limit, most_triangles};
ghost use Rattle.ember_model.specs.Valid.{IsValidTri};
ghost use Rattle.mesh_boolean.specs.Volumes.{sixfold_volume_of_mesh, sixfold_volumes_of_meshes, sixfold_volume, sixfold_volume_for};

use ember_model::{OutOfMemory, Scene, Tri, support_of};
use std::alloc::Global;

// Six times the volume between a triangle and 0. It is the constant of the triangle's plane.
fn sixfold_volume(t: &Tri) -> i64
    requires { IsValidTri t.now }
    ensures value { result ≡ sixfold_volume t.now }
    ensures small { Small support_constant_limit result }
{
    support_of(t).d
}

// What a triangle has of six times the volume of the mesh with this number.
fn sixfold_volume_for(t: &Tri, mesh: u32) -> i64
    requires { IsValidTri t.now }
    ensures value { result ≡ sixfold_volume_for mesh t.now }
    ensures small { Small support_constant_limit result }
{
    if t.mesh == mesh { sixfold_volume(t) } else { 0 }
}

// Six times the volume of the mesh with this number.
fn sixfold_volume_of_mesh(tris: &[Tri], mesh: u32) -> i64
    requires valid { All IsValidTri tris.now }
    requires few { length tris.now ≤ most_triangles }
    ensures { result ≡ sixfold_volume_of_mesh tris.now mesh }
{
    let mut sum = 0;
    for t in tris {
        sum += sixfold_volume_for(t, mesh);
    }
    sum
}

/// Six times the signed volume of each mesh of a scene, in order, in cubes of the grid's step. It is
/// negative if the mesh is inside out. The only error is out-of-memory.
pub fn sixfold_volumes_of_meshes(alloc: Global, scene: &Scene) -> Result<Vec<i64>, OutOfMemory>
    ensures { IfOk result (λ volumes. volumes.items ≡ sixfold_volumes_of_meshes scene.now.tris scene.now.meshes) }
{
    let mut volumes = Vec::with_capacity(alloc, scene.meshes as usize)?;
    for index in 0..scene.meshes {
        volumes.push(sixfold_volume_of_mesh(scene.tris.items(), index + 1))?;
    }
    Ok(volumes)
}
