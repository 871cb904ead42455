// The command `voxels`.
ghost use Rattle.std.specs.Prelude.{◌≡◌, ◌≤◌, length, IfOk, IfErr};
ghost use Rattle.ember_expr.specs.Formula.{formula_of};
ghost use Rattle.ember_query.specs.Queries.{IsExecutor};
ghost use Rattle.ember_verdict.specs.Lattices.{IsLatticeText};
ghost use Rattle.ember_io.specs.Calls.{shelf_seen};
ghost use Rattle.ember_verdict.specs.HeldTexts.{IsTextOver};
ghost use Rattle.ember_verdict.specs.NoReplies.{IsNoReply};
ghost use Rattle.ember_verdict.specs.Verdict.{voxels_verdict};

use ember_expr::Expr;
use ember_io::Shelf;
use ember_model::{OutOfMemory, Scene};
use ember_query::{Answer, Query, query_fills};
use ember_verdict::{Status, parse_text, read_scene};
use ember_voxel::{each_cell_has_its_value, grid_text};
use ember_words::{Text, Texts};
use std::alloc::Global;

// The text of the scene's lattice.
fn text_of_voxels<C: Fn(&Query) -> Result<Answer, OutOfMemory>>(
    alloc: Global,
    scene: &Scene,
    expr: &Expr,
    size: u8,
    executor: &C,
) -> Result<Vec<u8>, OutOfMemory>
    requires least { 4 ≤ size }
    requires most { size ≤ 12 }
    requires executor { IsExecutor C.pre C.post executor.now }
    ensures { IfOk result (λ text. IsLatticeText scene.now.tris (formula_of expr.now) size text.items) }
{
    let fills = query_fills(scene, expr, size, executor)?;
    // A law, which does nothing: each cell has the value at its reference point.
    each_cell_has_its_value(scene, expr);
    grid_text(alloc, size, &fills)
}

/// The output of `voxels`: the solid sampled on a lattice whose cells have the side `2 ^ size`, in
/// units, for a size of 4 to 12. `places` is at most 3, and there are at most 64 files. The error
/// is the status with which the call ends instead.
pub fn voxels_output<S: Shelf, C: Fn(&Query) -> Result<Answer, OutOfMemory>>(
    alloc: Global,
    expr: &Text,
    size: u8,
    places: u8,
    files: &Texts,
    shelf: &mut S,
    executor: &C,
) -> Result<Vec<u8>, Status>
    requires least { 4 ≤ size }
    requires most { size ≤ 12 }
    requires places { places ≤ 3 }
    requires few { length files.now ≤ 64 }
    requires executor { IsExecutor C.pre C.post executor.now }
    ensures contents { S.contents shelf.new ≡ S.contents shelf.old }
    ensures later { S.faults shelf.old ≤ S.faults shelf.new }
    ensures text { IfOk result
        (IsTextOver (voxels_verdict expr.now size places) files.now (S.contents shelf.old)) }
    ensures no_reply { IfErr result
        (IsNoReply (voxels_verdict expr.now size places) files.now (shelf_seen S.Shelf shelf)) }
{
    let files = files.items();
    let expr = match parse_text(alloc, expr, files.len() as u32) {
        Ok(expr) => expr,
        Err(status) => return Err(status),
    };
    let scene = match read_scene(alloc, shelf, files, places) {
        Ok(scene) => scene,
        Err(status) => return Err(status),
    };
    Ok(text_of_voxels(alloc, &scene, &expr, size, executor)?)
}
