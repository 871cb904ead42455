// The triangles of all meshes of an input.
ghost use Rattle.std.specs.Prelude.{◌≡◌};
ghost use Rattle.ember_model.specs.Meshes.{IsScene};

use crate::tri::Tris;

/// The triangles of all meshes, each mesh closed. Triangles are numbered from 0 in their order,
/// meshes from 1.
#[derive(Drop)]
pub struct Scene {
    pub tris: Tris,
    pub meshes: u32,
    ghost kept: { IsScene tris meshes },
}

impl Scene {
    /// The scene of these triangles.
    pub fn of(tris: Tris, meshes: u32) -> Scene
        requires { IsScene tris meshes }
        ensures tris { result.tris ≡ tris }
        ensures meshes { result.meshes ≡ meshes }
    {
        Scene { tris, meshes }
    }
}
