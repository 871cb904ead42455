// The sources of a solid's triangles.
ghost use Rattle.std.specs.Prelude.{◌≡◌, ◌≤◌, ◌<◌, ◌^◌, All, IfOk, if◌then◌else◌, length, map};
ghost use Rattle.ember_model.specs.Limits.{most_triangles};
ghost use Rattle.ember_model.specs.Valid.{IsValidPlane, IsValidTri};
ghost use Rattle.ember_arrays.specs.Sources.{AreSources, AreSourcesIf, flags_of, no_source, of_input, source_at};

use crate::inputs::InputTriangle;
use ember_model::{OutOfMemory, Tri};
use mesh_solid::SolidMesh;
use mesh_sources::{Source, sources_of};
use std::alloc::{AllocError, Global};

/// The bit of the flags that says that the triangle of the mesh faces the other way.
pub const TURNED: u32 = 1;

/// The bit of the flags that says that there are other such triangles.
pub const SEVERAL: u32 = 2;

/// Where a triangle of a solid comes from: the first triangle of the meshes, in their order, that lies in its plane
/// on the grid and isn't apart from it. (C gets it as it is here.)
#[repr(C)]
#[derive(Clone, Copy, Debug, PartialEq, Eq)]
pub struct ArraySource {
    /// The number of the mesh, from 1; 0 if there is no such triangle.
    pub mesh: u32,
    /// The index of its triangle; 2^32 - 1 if there is none.
    pub triangle: u32,
    /// [`TURNED`] and [`SEVERAL`], added.
    pub flags: u32,
}

fn flag_if(is_set: bool, flag: u32) -> u32
    requires { flag < 2 ^ 31 }
    ensures value { result ≡ (if is_set then flag else 0) }
    ensures size { result < 2 ^ 31 }
{
    if is_set { flag } else { 0 }
}

fn flags_of(source: &Source) -> u32
    ensures { result ≡ flags_of source.now.turned source.now.several }
{
    flag_if(source.turned, TURNED) + flag_if(source.several, SEVERAL)
}

fn no_source() -> ArraySource
    ensures { result ≡ no_source }
{
    ArraySource {
        mesh: 0,
        triangle: u32::MAX,
        flags: 0,
    }
}

// The source by the triangle of a mesh that it is.
fn of_input(inputs: &[InputTriangle], source: &Source) -> ArraySource
    ensures { result ≡ of_input inputs.now source.now }
{
    match inputs.get(source.triangle as usize) {
        Some(input) => ArraySource {
            mesh: input.mesh,
            triangle: input.triangle,
            flags: flags_of(source),
        },
        None => no_source(),
    }
}

// The source of a triangle that was made from the exact one with this index.
fn source_at(inputs: &[InputTriangle], exact: &[Option<Source>], origin: usize) -> ArraySource
    ensures { result ≡ source_at inputs.now exact.now origin }
{
    match exact.get(origin) {
        Some(Some(source)) => of_input(inputs, source),
        _ => no_source(),
    }
}

fn sources_at(
    alloc: Global,
    inputs: &[InputTriangle],
    exact: &[Option<Source>],
    origins: &[usize],
) -> Result<Vec<ArraySource>, AllocError>
    ensures { IfOk result (λ sources. sources.items ≡ map (source_at inputs.now exact.now) origins.now) }
{
    let mut sources = Vec::with_capacity(alloc, origins.len())?;
    for origin in origins {
        sources.push(source_at(inputs, exact, *origin))?;
    }
    Ok(sources)
}

// The sources of triangles that were made from these triangles of the mesh.
fn array_sources(
    alloc: Global,
    inputs: &[InputTriangle],
    scene: &[Tri],
    mesh: &SolidMesh,
    origins: &[usize],
) -> Result<Vec<ArraySource>, OutOfMemory>
    requires few { length scene.now ≤ most_triangles }
    requires scene { All IsValidTri scene.now }
    requires planes { All IsValidPlane mesh.now.planes.items }
    ensures { IfOk result (AreSources inputs.now scene.now mesh.now origins.now) }
{
    let exact = sources_of(alloc, scene, &mesh.corners, &mesh.planes, &mesh.triangles)?;
    let sources = sources_at(alloc, inputs, &exact, origins)?;
    Ok(sources)
}

// The same, if the triangles of the meshes are there.
pub(crate) fn sources_if(
    alloc: Global,
    inputs: &Option<Vec<InputTriangle>>,
    scene: &[Tri],
    mesh: &SolidMesh,
    origins: &[usize],
) -> Result<Option<Vec<ArraySource>>, OutOfMemory>
    requires few { length scene.now ≤ most_triangles }
    requires scene { All IsValidTri scene.now }
    requires planes { All IsValidPlane mesh.now.planes.items }
    ensures { IfOk result (AreSourcesIf inputs.now scene.now mesh.now origins.now) }
{
    match inputs {
        Some(inputs) => {
            let sources = array_sources(alloc, inputs, scene, mesh, origins)?;
            Ok(Some(sources))
        }
        None => Ok(None),
    }
}
