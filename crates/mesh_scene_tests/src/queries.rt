// Solids of scenes: by the calling thread alone, and by two workers.
ghost use Rattle.std.specs.Prelude.{IfOk};
ghost use Rattle.ember_query.specs.Queries.{IsAnswer, IsExecutor, IsQuery};

use crate::scenes::{expression, scene_of};
use crate::texts::{CUBE, SHIFTED_CUBE};
use ember_expr::Expr;
use ember_model::{Face, OutOfMemory, Scene};
use ember_query::{Answer, Query, answer_alone, answer_by_workers, solid_faces, solid_of};
use ember_reread::read_faces;
use std::alloc::Global;
use std::sync::Wait;
use std::test::Fail;
use std::thread::Threads;
use steal_pool::OpenGate;

fn is_same(face: &Face, same: &Face) -> bool {
    face.support == same.support && face.edges.items() == same.edges.items()
}

// The document holds these faces.
fn has_faces(alloc: Global, document: &[u8], faces: &[Face]) -> bool {
    let Ok(read) = read_faces(alloc, document) else {
        return false;
    };
    let read = read.items();
    if read.len() != faces.len() {
        return false;
    }
    for (face, same) in faces.iter().zip(read) {
        if !is_same(face, same) {
            return false;
        }
    }
    true
}

// The faces in memory are those that the document holds, and their reports are equal.
fn agree<C: Fn(&Query) -> Result<Answer, OutOfMemory>>(
    alloc: Global,
    scene: &Scene,
    expr: &Expr,
    executor: &C,
) -> Result<bool, OutOfMemory>
    requires { IsExecutor C.pre C.post executor.now }
{
    let solid = solid_of(alloc, scene, expr, executor)?;
    let found = solid_faces(alloc, scene, expr, executor)?;
    Ok(solid.report == found.report && has_faces(alloc, &solid.text, &found.faces))
}

fn agree_alone(alloc: Global, scene: &Scene, expr: &Expr) -> Result<bool, OutOfMemory> {
    agree(
        alloc,
        scene,
        expr,
        &|query: &Query| -> Result<Answer, OutOfMemory>
            requires { IsQuery query.now }
            ensures { IfOk result (IsAnswer query.entry.now) }
        { answer_alone(alloc, &OpenGate, query) },
    )
}

fn agree_by_two<R: Threads + Wait + Sync>(
    rt: &R,
    alloc: Global,
    scene: &Scene,
    expr: &Expr,
) -> Result<bool, OutOfMemory> {
    agree(
        alloc,
        scene,
        expr,
        &|query: &Query| -> Result<Answer, OutOfMemory>
            requires { IsQuery query.now }
            ensures { IfOk result (IsAnswer query.entry.now) }
        { answer_by_workers(rt, alloc, 2, &OpenGate, query) },
    )
}

#[test]
fn faces_in_memory_are_those_of_the_document(rt: HostRuntime) -> Result<(), Fail> {
    let alloc = rt.alloc();
    let scene = scene_of(alloc, CUBE, SHIFTED_CUBE)?;
    // By the last two, the faces of a cube are flipped.
    for text in ["m1|m2", "m1&!m2", "m2&!m1"] {
        let expr = expression(alloc, text.as_bytes())?;
        assert!(rt; agree_alone(alloc, &scene, &expr)?);
        assert!(rt; agree_by_two(&rt, alloc, &scene, &expr)?);
    }
    Ok(())
}
