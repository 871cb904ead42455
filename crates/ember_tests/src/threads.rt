// Runs by several workers.
use crate::calls::{Given, Named, are_same, give, give_alone, shelf_of, sink_of, words_of};
use crate::texts::{C, D};
use ember_run::{Status, run};
use std::alloc::Global;
use std::sync::Wait;
use std::test::Fail;
use std::thread::Threads;
use steal_pool::DepthGate;

const CUBES: Named = &[("c.obj", C), ("d.obj", D)];

// What the words give over the two cubes, where the workers wait at this gate.
fn give_at<R: Threads + Wait + Sync>(
    rt: &R,
    alloc: Global,
    words: &[String],
    gate: &DepthGate,
) -> Option<Given> {
    let mut shelf = shelf_of(alloc, CUBES)?;
    let mut out = sink_of(alloc, 100_000)?;
    let mut err = sink_of(alloc, 1000)?;
    let status = run(rt, alloc, words, &mut shelf, &mut out, &mut err, gate);
    Some(Given { status, out, err })
}

// The first is done, and both have the same output.
fn is_done_alike(given: &Given, alone: &Given) -> bool {
    given.status == Status::Done && given.out.bytes() == alone.out.bytes()
}

// The worker that comes to one half of the root waits there until another has come to the other
// half. One thread alone would wait until the gate is tired. What is written is the same.
fn are_halves_shared<R: Threads + Wait + Sync>(rt: &R, alloc: Global, line: &str) -> Option<bool> {
    let words = words_of(alloc, line)?;
    let gate = DepthGate::new(1);
    let given = give_at(rt, alloc, &words, &gate)?;
    let alone = give_alone(alloc, &words, CUBES)?;
    Some(!gate.was_tired() && is_done_alike(&given, &alone))
}

static LINES_OF_TWO_WORKERS: [&str; 3] = [
    "bool --expr m1|m2 --workers 2 c.obj d.obj",
    "voxels --expr m1 --size 11 --workers 2 c.obj",
    "pairs --workers 2 c.obj d.obj",
];

#[test]
fn two_workers_share_the_halves_of_the_root(rt: HostRuntime) {
    for &line in &LINES_OF_TWO_WORKERS {
        assert!(rt; are_halves_shared(&rt, rt.alloc(), line) == Some(true));
    }
}

const REPORT: &[u8] = b"boxes 55 leaves 4 skipped 24 faces 26\n";

fn is_union_of_cubes(given: &Given) -> bool {
    given.status == Status::Done
        && given.out.bytes().ends_with(b"end 26\n")
        && given.err.bytes() == REPORT
}

// Whether a line gives the same by `run` and by `run_one`, and the same as the calling thread alone gives for the
// union.
fn is_union<R: Threads + Wait + Sync>(
    rt: &R,
    alloc: Global,
    line: &str,
    alone: &Given,
) -> Option<bool> {
    let given = give(rt, alloc, &words_of(alloc, line)?, CUBES)?;
    Some(are_same(&given, alone))
}

static LINES_OF_A_UNION: [&str; 4] = [
    "bool --expr m1|m2 --workers 1 --report c.obj d.obj",
    "bool --expr m1|m2 --workers 2 --report c.obj d.obj",
    "bool --expr m1|m2 --workers 7 --report c.obj d.obj",
    "bool --expr m1|m2 --workers 64 --report c.obj d.obj",
];

#[test]
fn a_union_is_the_same_by_any_number_of_workers(rt: HostRuntime) -> Result<(), Fail> {
    let alloc = rt.alloc();
    let words = words_of(alloc, "bool --expr m1|m2 --report c.obj d.obj").ok_or("no words")?;
    let alone = give_alone(alloc, &words, CUBES).ok_or("no answer")?;
    assert!(rt; is_union_of_cubes(&alone));
    for &line in &LINES_OF_A_UNION {
        assert!(rt; is_union(&rt, alloc, line, &alone) == Some(true));
    }
    Ok(())
}
