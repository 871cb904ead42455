// One box of a Boolean: skipped, a leaf or halves.
ghost use Rattle.ember_visit.specs.Jobs.{IsJob};

use crate::scenes::{expression, scene_of_files};
use crate::texts::{C, D, TETRA, TETRA_TEXT};
use ember_expr::Expr;
use ember_gen::scene_of;
use ember_job::{Job, Kind, Outcome};
use ember_model::{Face, OutOfMemory, Plane, Scene};
use ember_step::{box_step, count_step, faces_step, root_job, text_step};
use ember_text::{FacesText, document_of, face_count};
use std::alloc::Global;
use std::test::Fail;

// What becomes of the root, and how many regions it has if it is a leaf.
type Root = (Kind, u64);

// An outcome is looked at by reference, since parts that are taken out of it cost seconds of proof.

// By the step that gives the regions.
fn root_by_regions(alloc: Global, s: &Scene, e: &Expr, job: &Job) -> Result<Root, OutOfMemory>
    requires { IsJob s.now.tris job.now }
{
    let outcome = box_step(alloc, s, e, job)?;
    Ok(match &outcome {
        Outcome::Halves(_, _) => (Kind::Halved, 0),
        Outcome::Leaf(kept) => (Kind::Leafed, kept.items().len() as u64),
        Outcome::Skipped => (Kind::Passed, 0),
    })
}

// By the step that counts them.
fn root_by_count(alloc: Global, s: &Scene, e: &Expr, job: &Job) -> Result<Root, OutOfMemory>
    requires { IsJob s.now.tris job.now }
{
    let outcome = count_step(alloc, s, e, job)?;
    Ok(match &outcome {
        Outcome::Halves(_, _) => (Kind::Halved, 0),
        Outcome::Leaf(count) => (Kind::Leafed, *count),
        Outcome::Skipped => (Kind::Passed, 0),
    })
}

// By the step that gives their text.
fn root_by_text(alloc: Global, s: &Scene, e: &Expr, job: &Job) -> Result<Root, OutOfMemory>
    requires { IsJob s.now.tris job.now }
{
    let outcome = text_step(alloc, s, e, job)?;
    Ok(match &outcome {
        Outcome::Halves(_, _) => (Kind::Halved, 0),
        Outcome::Leaf(text) => (Kind::Leafed, text.count()),
        Outcome::Skipped => (Kind::Passed, 0),
    })
}

// By the step that gives their faces.
fn root_by_faces(alloc: Global, s: &Scene, e: &Expr, job: &Job) -> Result<Root, OutOfMemory>
    requires { IsJob s.now.tris job.now }
{
    let outcome = faces_step(alloc, s, e, job)?;
    Ok(match &outcome {
        Outcome::Halves(_, _) => (Kind::Halved, 0),
        Outcome::Leaf(faces) => (Kind::Leafed, faces.items().len() as u64),
        Outcome::Skipped => (Kind::Passed, 0),
    })
}

// By each step.
fn roots(alloc: Global, s: &Scene, e: &Expr, job: &Job) -> Result<[Root; 4], OutOfMemory>
    requires { IsJob s.now.tris job.now }
{
    Ok([
        root_by_regions(alloc, s, e, job)?,
        root_by_count(alloc, s, e, job)?,
        root_by_text(alloc, s, e, job)?,
        root_by_faces(alloc, s, e, job)?,
    ])
}

// Whether each step gives this.
fn is_root(alloc: Global, s: &Scene, text: &str, want: Root) -> Result<bool, Fail> {
    let e = expression(alloc, text.as_bytes(), 2)?;
    let job = root_job(alloc, s)?;
    Ok(roots(alloc, s, &e, &job)? == [want; 4])
}

#[test]
fn the_root_of_one_box(rt: HostRuntime) -> Result<(), Fail> {
    let scene = scene_of(rt.alloc(), 1)?;
    assert!(rt; is_root(rt.alloc(), &scene, "m1|m2", (Kind::Leafed, 12))?);
    // This expression is never true.
    assert!(rt; is_root(rt.alloc(), &scene, "m1&1=2", (Kind::Passed, 0))?);
    Ok(())
}

#[test]
fn the_roots_of_a_tetrahedron_and_of_two_cubes(rt: HostRuntime) -> Result<(), Fail> {
    let tetra = scene_of_files(rt.alloc(), &[TETRA])?;
    assert!(rt; is_root(rt.alloc(), &tetra, "m1", (Kind::Leafed, 4))?);
    let cubes = scene_of_files(rt.alloc(), &[C, D])?;
    assert!(rt; is_root(rt.alloc(), &cubes, "m1|m2", (Kind::Halved, 0))?);
    Ok(())
}

// The text of the tetrahedron.
fn text_of_tetra(alloc: Global) -> Result<FacesText, Fail> {
    let scene = scene_of_files(alloc, &[TETRA])?;
    let e = expression(alloc, b"m1", 1)?;
    let job = root_job(alloc, &scene)?;
    match text_step(alloc, &scene, &e, &job)? {
        Outcome::Leaf(text) => Ok(text),
        _ => Err(Fail::from("no leaf")),
    }
}

#[test]
fn the_text_of_a_tetrahedron(rt: HostRuntime) -> Result<(), Fail> {
    let alloc = rt.alloc();
    let texts = vec![in alloc; text_of_tetra(alloc)?]?;
    assert!(rt; face_count(&texts)? == 4);
    let file = document_of(alloc, texts)?;
    assert!(rt; file.as_slice() == TETRA_TEXT);
    Ok(())
}

// The faces of the tetrahedron by this expression.
fn faces_of_tetra(alloc: Global, text: &str) -> Result<Vec<Face>, Fail> {
    let scene = scene_of_files(alloc, &[TETRA])?;
    let e = expression(alloc, text.as_bytes(), 1)?;
    let job = root_job(alloc, &scene)?;
    match faces_step(alloc, &scene, &e, &job)? {
        Outcome::Leaf(faces) => Ok(faces.into_vec()),
        _ => Err(Fail::from("no leaf")),
    }
}

// A support plane, and the edge planes in order.
type Row = [[i64; 4]; 4];

fn numbers_of(p: &Plane) -> [i64; 4] {
    [p.a, p.b, p.c, p.d]
}

fn is_row(face: &Face, row: &Row) -> bool {
    let [first, second, third] = face.edges.items() else {
        return false;
    };
    let edges = [numbers_of(first), numbers_of(second), numbers_of(third)];
    numbers_of(&face.support) == row[0] && edges == [row[1], row[2], row[3]]
}

// The faces of the tetrahedron by this expression are these.
fn are_rows(alloc: Global, text: &str, rows: &[Row]) -> Result<bool, Fail> {
    let faces = faces_of_tetra(alloc, text)?;
    for (face, row) in faces.iter().zip(rows.iter()) {
        if !is_row(face, row) {
            return Ok(false);
        }
    }
    Ok(faces.len() == rows.len())
}

static INSIDE: [Row; 4] = [
    [[0, 0, -1, 0], [-1, 0, 0, 0], [1, 1, 0, 1], [0, -1, 0, 0]],
    [[0, -1, 0, 0], [0, 0, -1, 0], [1, 0, 1, 1], [-1, 0, 0, 0]],
    [[-1, 0, 0, 0], [0, -1, 0, 0], [0, 1, 1, 1], [0, 0, -1, 0]],
    [[1, 1, 1, 1], [0, 0, -1, 0], [0, 1, 1, 1], [0, -1, 0, 0]],
];

static OUTSIDE: [Row; 4] = [
    [[0, 0, 1, 0], [-1, 0, 0, 0], [0, -1, 0, 0], [1, 1, 0, 1]],
    [[0, 1, 0, 0], [0, 0, -1, 0], [-1, 0, 0, 0], [1, 0, 1, 1]],
    [[1, 0, 0, 0], [0, -1, 0, 0], [0, 0, -1, 0], [0, 1, 1, 1]],
    [[-1, -1, -1, -1], [0, 0, -1, 0], [0, -1, 0, 0], [0, 1, 1, 1]],
];

#[test]
fn the_faces_of_a_tetrahedron_from_both_sides(rt: HostRuntime) -> Result<(), Fail> {
    assert!(rt; are_rows(rt.alloc(), "m1", &INSIDE)?);
    assert!(rt; are_rows(rt.alloc(), "!m1", &OUTSIDE)?);
    Ok(())
}
