// Scenes of two files, and expressions over them.
ghost use Rattle.std.specs.Prelude.{◌≡◌, ◌≤◌, length, All, IfOk};
ghost use Rattle.ember_model.specs.Limits.{most_triangles};

use ember_expr::{Expr, parse};
use ember_mesh::{Closed, Parts, balanced, check, join};
use ember_model::{Scene, Soup};
use ember_obj::read_obj;
use std::alloc::Global;
use std::test::Fail;

// The triangles of a file, with this number of a mesh.
fn soup_of(alloc: Global, bytes: &[u8], mesh: u32) -> Result<Soup, Fail>
    ensures few { IfOk result (λ soup. length soup.tris ≤ most_triangles) }
    ensures mesh { IfOk result (λ soup. All (λ t. t.mesh ≡ mesh) soup.tris) }
{
    if bytes.len() > 268_435_456 {
        return Err(Fail::from("long file"));
    }
    match read_obj(alloc, bytes, 0, mesh) {
        Ok(soup) => Ok(soup),
        Err(_) => Err(Fail::from("refused file")),
    }
}

// The closed mesh of a file, with this number.
fn closed_of(alloc: Global, bytes: &[u8], mesh: u32) -> Result<Closed, Fail>
    ensures { IfOk result (λ closed. All (λ t. t.mesh ≡ mesh) closed.tris) }
{
    let soup = soup_of(alloc, bytes, mesh)?;
    match balanced(alloc, check(soup)) {
        Ok(closed) => Ok(closed),
        Err((_solid, _fault)) => Err(Fail::from("open mesh")),
    }
}

/// The scene of two files, one mesh each.
pub fn scene_of(alloc: Global, first: &[u8], second: &[u8]) -> Result<Scene, Fail> {
    let first = closed_of(alloc, first, 1)?;
    let second = closed_of(alloc, second, 2)?;
    let parts = Parts::of(vec![in alloc; first, second]?);
    match join(alloc, parts) {
        Ok(scene) => Ok(scene),
        Err(_) => Err(Fail::from("no scene")),
    }
}

/// The expression of this text over two meshes.
pub fn expression(alloc: Global, text: &[u8]) -> Result<Expr, Fail> {
    match parse(alloc, text, 2) {
        Ok(expr) => Ok(expr),
        Err(_) => Err(Fail::from("refused expression")),
    }
}
