// Scenes of files, expressions over them, and counts of their first meshes.
ghost use Rattle.std.specs.Prelude.{◌≡◌, ◌≤◌, length, All, IfOk};
ghost use Rattle.ember_model.specs.Limits.{most_triangles};

use ember_expr::{Expr, parse};
use ember_mesh::{Closed, Parts, balanced, check, join};
use ember_model::{Scene, Soup, Vector};
use ember_obj::read_obj;
use std::alloc::Global;
use std::test::Fail;

/// The triangles of a file, with this number of a mesh.
pub fn soup_of(alloc: Global, bytes: &[u8], mesh: u32) -> Result<Soup, Fail>
    ensures few { IfOk result (λ soup. length soup.tris ≤ most_triangles) }
    ensures mesh { IfOk result (λ soup. All (λ t. t.mesh ≡ mesh) soup.tris) }
{
    if bytes.len() > 268_435_456 {
        return Err(Fail::from("long file"));
    }
    match read_obj(alloc, bytes, 0, mesh) {
        Ok(soup) => Ok(soup),
        Err(_) => Err(Fail::from("refused file")),
    }
}

/// The closed mesh of a file, with this number.
pub fn closed_of(alloc: Global, bytes: &[u8], mesh: u32) -> Result<Closed, Fail>
    ensures { IfOk result (λ closed. All (λ t. t.mesh ≡ mesh) closed.tris) }
{
    let soup = soup_of(alloc, bytes, mesh)?;
    match balanced(alloc, check(soup)) {
        Ok(closed) => Ok(closed),
        Err((_solid, _fault)) => Err(Fail::from("open mesh")),
    }
}

/// The scene of these files, one mesh each.
pub fn scene_of_files(alloc: Global, files: &[&[u8]]) -> Result<Scene, Fail>
    requires { length files.now ≤ 64 }
{
    let mut parts = Vec::new(alloc);
    let mut number = 1u32;
    for bytes in files {
        let closed = closed_of(alloc, bytes, number)?;
        let Ok(()) = parts.push(closed) else {
            return Err(Fail::from("memory"));
        };
        number += 1;
    }
    match join(alloc, Parts::of(parts)) {
        Ok(scene) => Ok(scene),
        Err(_) => Err(Fail::from("no scene")),
    }
}

/// The expression of this text over so many meshes.
pub fn expression(alloc: Global, text: &[u8], meshes: u32) -> Result<Expr, Fail>
    requires { meshes ≤ 64 }
{
    match parse(alloc, text, meshes) {
        Ok(e) => Ok(e),
        Err(_) => Err(Fail::from("refused expression")),
    }
}

/// The counts of the first three meshes.
pub fn first_counts(v: &Vector) -> [i32; 3] {
    [v.counts[0], v.counts[1], v.counts[2]]
}
