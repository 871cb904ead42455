// The command `at`.
ghost use Rattle.std.specs.Prelude.{ℕ, ◌≡◌, ◌≢◌, ◌≤◌, ◌++◌, length, true, All, Err, IfOk, IfErr, OnOk};
ghost use Rattle.std.specs.List.{list_all};
ghost use Rattle.ember_expr.specs.Truth.{AreCounts};
ghost use Rattle.ember_model.specs.declared.point.Axis.TheVariants.{X};
ghost use Rattle.ember_model.specs.ClearTest.{is_clear_of};
ghost use Rattle.ember_model.specs.Meshes.{vector};
ghost use Rattle.ember_model.specs.Valid.{IsValidSpot, IsValidTri};
ghost use Rattle.ember_verdict.specs.OptionalExpr.{given_formula, point_verdict};
ghost use Rattle.ember_verdict.specs.Outputs.{count_line, count_lines, counts_text, value_line, value_lines};
ghost use Rattle.ember_verdict.specs.Statuses.{IsText, RefusesOnlyAs};
ghost use Rattle.ember_io.specs.Calls.{shelf_seen};
ghost use Rattle.ember_words.specs.declared.command.Command.TheVariants.{At};
ghost use Rattle.ember_verdict.specs.HeldTexts.{IsTextOf};
ghost use Rattle.ember_verdict.specs.NoReplies.{IsAfterFiles, IsNoReplyTo};

use crate::expression::parse_given;
use crate::scene::read_scene;
use crate::status::Status;
use ember_expr::{Expr, value};
use ember_io::Shelf;
use ember_law::axis_count;
use ember_model::{Axis, OutOfMemory, Scene, Spot, Tri, Vector, clear};
use ember_words::{Text, Texts};
use itoa::Buffer;
use std::alloc::Global;

// Whether the point is clear of the triangle.
fn is_clear(point: &Spot, tri: &Tri) -> bool
    requires point { IsValidSpot point.now }
    requires tri { IsValidTri tri.now }
    ensures { result ≡ is_clear_of tri.now point.now }
{
    clear(point, tri)
}

// Whether the point is clear of all these triangles.
#[tactic(auto, using(crate::proofs::PointCounts::all_more))]
fn is_clear_of_all(point: &Spot, tris: &[Tri]) -> bool
    requires point { IsValidSpot point.now }
    requires tris { All IsValidTri tris.now }
    ensures { result ≡ list_all (λ t. is_clear_of t point.now) tris.now }
{
    for tri in tris {
        if !is_clear(point, tri) {
            return false;
        }
    }
    true
}

// The winding numbers of the meshes, counted along x.
fn counts_at(scene: &Scene, point: &Spot) -> Vector
    requires point { IsValidSpot point.now }
    requires clear { list_all (λ t. is_clear_of t point.now) scene.now.tris ≡ true }
    ensures counts { result.counts ≡ vector X scene.now.tris point.now }
    ensures small { AreCounts result.counts }
{
    let mut vector = Vector { counts: [0; 64] };
    axis_count(scene, point, Axis::X, &mut vector);
    vector
}

// Appends the line of a mesh: its winding number.
fn put_count(mesh: u32, count: i32, text: &mut Vec<u8>) -> Result<(), OutOfMemory>
    ensures { OnOk result (text.new.items ≡ text.old.items ++ count_line mesh count) }
{
    let mut buffer = Buffer::new();
    text.extend_from_slice(b"w")?;
    text.extend_from_slice(buffer.format(mesh).as_bytes())?;
    text.extend_from_slice(b" ")?;
    text.extend_from_slice(buffer.format(count).as_bytes())?;
    text.extend_from_slice(b"\n")
}

// Appends the lines of all these meshes, from mesh 1 on.
fn put_counts(counts: &[i32], text: &mut Vec<u8>) -> Result<(), OutOfMemory>
    requires { length counts.now ≤ 64 }
    ensures { OnOk result (text.new.items ≡ text.old.items ++ count_lines 1 counts.now) }
{
    let mut mesh = 1;
    for count in counts {
        put_count(mesh, *count, text)?;
        mesh += 1;
    }
    Ok(())
}

// The line of the expression's value.
fn value_text(holds: bool) -> &'static [u8]
    ensures { result.now ≡ value_line holds }
{
    if holds { b"value 1\n" } else { b"value 0\n" }
}

// Appends the line of the expression's value, if an expression is given.
fn put_value(counts: &Vector, expr: &Option<Expr>, text: &mut Vec<u8>) -> Result<(), OutOfMemory>
    requires { AreCounts counts.now.counts }
    ensures { OnOk result (text.new.items ≡ text.old.items ++ value_lines counts.now.counts (given_formula expr.now)) }
{
    match expr {
        Some(expr) => text.extend_from_slice(value_text(value(expr, counts))),
        None => Ok(()),
    }
}

// The lines of the first `meshes` meshes, and that of the value.
fn counts_lines(
    alloc: Global,
    meshes: usize,
    counts: &Vector,
    expr: &Option<Expr>,
) -> Result<Vec<u8>, OutOfMemory>
    requires meshes { meshes ≤ 64 }
    requires counts { AreCounts counts.now.counts }
    ensures { IfOk result (λ text. text.items ≡ counts_text meshes counts.now.counts (given_formula expr.now)) }
{
    let mut text = Vec::new(alloc);
    put_counts(counts.counts.split_at(meshes).0, &mut text)?;
    put_value(counts, expr, &mut text)?;
    Ok(text)
}

// The output at a point. A point that isn't clear of the scene is refused.
#[tactic(auto, using(crate::proofs::AtVerdict::clear_text, crate::proofs::AtVerdict::unclear_refused, crate::proofs::NoReplies::unclear_after, crate::proofs::NoReplies::memory_after))]
fn text_at(
    alloc: Global,
    point: &Spot,
    scene: &Scene,
    meshes: usize,
    expr: &Option<Expr>,
) -> Result<Vec<u8>, Status>
    requires point { IsValidSpot point.now }
    requires meshes { meshes ≤ 64 }
    ensures text { IfOk result (λ text. IsText (point_verdict point.now meshes expr.now scene.now) text.items) }
    ensures refused { IfErr result (RefusesOnlyAs (point_verdict point.now meshes expr.now scene.now)) }
    ensures kind { IfErr result IsAfterFiles }
    ensures no_read_fault { (i : ℕ) → result ≢ Err (Status.ReadFault i) }
    ensures never { (result ≢ Err Status.Done) × (result ≢ Err Status.Words) × (result ≢ Err Status.WriteFault) }
{
    if !is_clear_of_all(point, scene.tris.items()) {
        return Err(Status::NotClear);
    }
    let counts = counts_at(scene, point);
    Ok(counts_lines(alloc, meshes, &counts, expr)?)
}

/// The output of `at`: the winding number of each mesh at the point, and the value of the
/// expression, if one is given. The point's coordinates are in units. `places` is at most 3, and
/// there are at most 64 files. The error is the status with which the call ends instead.
pub fn at_output<S: Shelf>(
    alloc: Global,
    point: &Spot,
    expr: &Option<Text>,
    places: u8,
    files: &Texts,
    shelf: &mut S,
) -> Result<Vec<u8>, Status>
    requires point { IsValidSpot point.now }
    requires places { places ≤ 3 }
    requires few { length files.now ≤ 64 }
    ensures contents { S.contents shelf.new ≡ S.contents shelf.old }
    ensures later { S.faults shelf.old ≤ S.faults shelf.new }
    ensures text { IfOk result (IsTextOf (At point.now expr.now places files.now) (S.contents shelf.old)) }
    ensures no_reply { IfErr result
        (IsNoReplyTo (At point.now expr.now places files.now) (shelf_seen S.Shelf shelf)) }
{
    let files = files.items();
    let expr = match parse_given(alloc, expr, files.len() as u32) {
        Ok(expr) => expr,
        Err(status) => return Err(status),
    };
    let scene = match read_scene(alloc, shelf, files, places) {
        Ok(scene) => scene,
        Err(status) => return Err(status),
    };
    text_at(alloc, point, &scene, files.len(), &expr)
}
