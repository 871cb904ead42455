// The parts of a union, merged in several orders.
ghost use Rattle.std.specs.Prelude.{IfOk};
ghost use Rattle.ember_box.specs.Near.{near};
ghost use Rattle.ember_expr.specs.Formula.{formula_of};
ghost use Rattle.ember_job.specs.Works.{Answers};
ghost use Rattle.ember_leaf.specs.Written.{IsWrittenIn};
ghost use Rattle.ember_visit.specs.Jobs.{IsJob};
ghost use Rattle.ember_visit.specs.Values.{shape};

use crate::scenes::{expression, scene_of_files};
use crate::texts::{C, D};
use ember_expr::Expr;
use ember_job::{Job, Outcome, Step};
use ember_leaf::KeptList;
use ember_model::{OutOfMemory, Scene};
use ember_step::{BoolWork, box_step, root_job};
use ember_text::document;
use ember_tree::{Part, merge};
use std::alloc::Global;
use std::test::Fail;
use steal_pool::{OpenGate, run_alone};

// The parts of a solid, in the order in which one thread finds them.
fn parts_of(alloc: Global, s: &Scene, e: &Expr) -> Result<Vec<Part<KeptList>>, OutOfMemory> {
    let root = root_job(alloc, s)?;
    let step = Step::new(
        BoolWork { scene: s, expr: e },
        |job: &Job| -> Result<Outcome<KeptList>, OutOfMemory>
            requires { IsJob s.now.tris job.now }
            ensures { IfOk result (λ o. Answers (shape s.entry.now.tris (formula_of e.entry.now)) (λ j kept.
                IsWrittenIn s.entry.now.tris (formula_of e.entry.now) j.cell (near s.entry.now.tris j.cell) kept)
                job.now o) }
        { box_step(alloc, s, e, job) },
    );
    let harvest = run_alone(alloc, root, &step, &OpenGate)?;
    Ok(harvest.parts.into_vec())
}

// The documents of the parts, merged, one after the other.
fn documents(alloc: Global, parts: Vec<Part<KeptList>>) -> Result<Vec<u8>, OutOfMemory> {
    let mut text = Vec::new(alloc);
    let items = merge(alloc, parts)?;
    for kept in items.iter() {
        text.extend_from_slice(&document(alloc, kept.items())?)?;
    }
    Ok(text)
}

// An order in which the parts come.
#[derive(Clone, Copy)]
enum Order {
    Found,
    Reversed,
    Rotated,
}

// The parts in this order.
fn ordered(parts: Vec<Part<KeptList>>, order: Order) -> Vec<Part<KeptList>> {
    let mut parts = parts;
    match order {
        Order::Found => {}
        Order::Reversed => parts.reverse(),
        Order::Rotated => {
            if parts.len() > 1 {
                parts.rotate_left(1);
            }
        }
    }
    parts
}

// Whether the four parts, in this order, give these documents.
fn are_merged(alloc: Global, s: &Scene, e: &Expr, order: Order, want: &[u8]) -> Result<bool, Fail> {
    let parts = parts_of(alloc, s, e)?;
    let are_four = parts.len() == 4;
    let text = documents(alloc, ordered(parts, order))?;
    Ok(are_four && text.as_slice() == want)
}

#[test]
fn parts_of_a_union_in_any_order_merge_alike(rt: HostRuntime) -> Result<(), Fail> {
    let alloc = rt.alloc();
    let scene = scene_of_files(alloc, &[C, D])?;
    let e = expression(alloc, b"m1|m2", 2)?;
    let want = documents(alloc, parts_of(alloc, &scene, &e)?)?;
    assert!(rt; are_merged(alloc, &scene, &e, Order::Found, &want)?);
    assert!(rt; are_merged(alloc, &scene, &e, Order::Reversed, &want)?);
    assert!(rt; are_merged(alloc, &scene, &e, Order::Rotated, &want)?);
    Ok(())
}
