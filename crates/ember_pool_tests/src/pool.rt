// Runs of a step that halves boxes along x down to a floor and gives the path of each box there.
ghost use Rattle.std.specs.Prelude.{◌≡◌, ◌≤◌, IfOk};
ghost use Rattle.ember_box.specs.Boxes as boxes;
ghost use Rattle.ember_job.specs.Works.{Answers};
ghost use Rattle.ember_pool_tests.specs.Halving.{halving_shape, is_path};

use ember_box::{halves, root};
use ember_job::{Entry, Job, Numbers, OneItem, Outcome, Step, Work};
use ember_model::{Axis, OutOfMemory, Vector};
use ember_tree::merge;
use std::alloc::{AllocError, Global};
use std::process::Abort;
use std::sync::Wait;
use std::sync::atomic::{AtomicU64, Ordering};
use std::test::Fail;
use std::thread::Threads;
use steal_pool::{DepthGate, Gate, Harvest, OpenGate, PartList, run_alone, run_tree};

// The work of the tests, with the logarithm along x at which a box is a leaf.
#[derive(Drop)]
struct Halving {
    floor: u8,
}

impl Work for Halving {
    ghost use Rattle.std.specs.Prelude.{◌≡◌, ⊤};
    ghost use Rattle.ember_pool_tests.specs.Halving.{halving_shape, is_path, halves_split as split};

    type Item = u64;

    ghost valid = { λ _ _. ⊤ };

    ghost shape = { λ w j. halving_shape w.floor j };

    ghost item = { λ _ j it. is_path j it };

    ghost halves_valid = { λ _ _ _ _ _ _. (tt, tt) };

    ghost halves_split = { λ w j l r _ e. split w.floor j l r e };
}

impl OneItem for Halving {
    ghost use Rattle.std.proofs.Common.{◌∙◌, sym};

    ghost one_item = { λ _ _ _ _ x y. x ∙ sym y };
}

// The root box with nothing else.
fn root_job(alloc: Global) -> Job
    ensures { result.cell ≡ boxes.root }
{
    Job {
        cell: root(),
        list: Numbers::of(Vec::new(alloc)),
        at: Vector { counts: [0; 64] },
    }
}

// The step, which counts its calls, and finds no memory at one path.
fn halve_step(
    alloc: Global,
    calls: &AtomicU64,
    floor: u8,
    short: u64,
    job: &Job,
) -> Result<Outcome<u64>, OutOfMemory>
    ensures { IfOk result (λ o. Answers (halving_shape floor) is_path job.now o) }
{
    calls.fetch_add(1, Ordering::SeqCst);
    let path = job.cell.path();
    if path == short {
        return Err(AllocError);
    }
    if job.cell.log(Axis::X) <= floor {
        return Ok(Outcome::Leaf(path));
    }
    let (left_cell, right_cell) = halves(&job.cell, Axis::X);
    let left = Job {
        cell: left_cell,
        list: Numbers::of(Vec::new(alloc)),
        at: job.at,
    };
    let right = Job {
        cell: right_cell,
        list: Numbers::of(Vec::new(alloc)),
        at: job.at,
    };
    Ok(Outcome::Halves(left, right))
}

// A run by this many workers, or by one caller alone if they are none.
fn run<R: Threads + Wait + Sync, G: Gate + Sync>(
    rt: &R,
    alloc: Global,
    workers: u32,
    floor: u8,
    short: u64,
    calls: &AtomicU64,
    gate: &G,
) -> Result<Harvest<u64>, OutOfMemory>
    requires { workers ≤ 64 }
{
    let step = Step::new(
        Halving { floor },
        move |job: &Job| -> Result<Outcome<u64>, OutOfMemory>
            ensures { IfOk result (λ o. Answers (halving_shape floor) is_path job.now o) }
        { halve_step(alloc, calls, floor, short, job) },
    );
    if workers == 0 {
        return run_alone(alloc, root_job(alloc), &step, gate);
    }
    run_tree(rt, alloc, workers, root_job(alloc), &step, gate)
}

// Each path from 1 to the last one occurs in the journals once, and nothing else does.
fn check_journals(
    rt: &impl Abort,
    alloc: Global,
    journals: &[Vec<Entry>],
    last: u64,
) -> Result<(), Fail> {
    let mut seen = vec![in alloc; 0u8; 2048]?;
    let mut entries = 0u64;
    for journal in journals {
        for entry in journal.iter() {
            entries = entries.saturating_add(1);
            if let Some(times) = seen.get_mut(entry.path as usize) {
                *times = times.saturating_add(1);
            }
        }
    }
    assert!(rt; entries == last);
    let mut once = 0u64;
    for (path, times) in seen.iter().enumerate() {
        if *times == 1 && 1 <= path && path as u64 <= last {
            once = once.saturating_add(1);
        }
    }
    assert!(rt; once == last);
    Ok(())
}

// With this many leaves, the items in the order of the tree are the paths of the leaves from left
// to right.
fn check_items(
    rt: &impl Abort,
    alloc: Global,
    parts: PartList<u64>,
    leaves: u64,
) -> Result<(), Fail> {
    let items = merge(alloc, parts.into_vec())?;
    assert!(rt; items.len() as u64 == leaves);
    let mut want = leaves;
    for item in items.iter() {
        assert!(rt; *item == want);
        want = want.saturating_add(1);
    }
    Ok(())
}

fn check(
    rt: &impl Abort,
    alloc: Global,
    harvest: Harvest<u64>,
    journals: usize,
    leaves: u64,
) -> Result<(), Fail> {
    let Harvest {
        parts,
        journals: lists,
        left,
    } = harvest;
    assert!(rt; left == 0);
    assert!(rt; lists.items().len() == journals);
    check_journals(
        rt,
        alloc,
        lists.items(),
        leaves.saturating_mul(2).saturating_sub(1),
    )?;
    check_items(rt, alloc, parts, leaves)
}

// By one caller alone, and by so many workers.
#[test]
fn each_box_is_run_once(rt: HostRuntime) -> Result<(), Fail> {
    let alloc = rt.alloc();
    let calls = AtomicU64::new(0);
    for (workers, journals) in [(0, 1), (1, 2), (3, 4), (64, 65)] {
        assert!(rt; workers <= 64);
        let harvest = run(&rt, alloc, workers, 2, 0, &calls, &OpenGate)?;
        check(&rt, alloc, harvest, journals, 1024)?;
    }
    assert!(rt; calls.load(Ordering::SeqCst) == 4 * 2047);
    Ok(())
}

#[test]
fn a_gate_that_holds_a_depth_lets_it_pass(rt: HostRuntime) -> Result<(), Fail> {
    let alloc = rt.alloc();
    let calls = AtomicU64::new(0);
    let gate = DepthGate::new(3);
    let harvest = run(&rt, alloc, 8, 2, 0, &calls, &gate)?;
    check(&rt, alloc, harvest, 9, 1024)?;
    assert!(rt; !gate.was_tired());
    assert!(rt; calls.load(Ordering::SeqCst) == 2047);
    Ok(())
}

#[test]
fn want_of_memory_at_any_box_ends_the_run(rt: HostRuntime) -> Result<(), Fail> {
    let alloc = rt.alloc();
    let calls = AtomicU64::new(0);
    for short in 1..32u64 {
        assert!(rt; run(&rt, alloc, 0, 8, short, &calls, &OpenGate).is_err());
        assert!(rt; run(&rt, alloc, 2, 8, short, &calls, &OpenGate).is_err());
    }
    let whole = run(&rt, alloc, 2, 8, 32, &calls, &OpenGate)?;
    check(&rt, alloc, whole, 3, 16)
}

#[test]
fn a_hundred_runs_give_equal_answers(rt: HostRuntime) -> Result<(), Fail> {
    let alloc = rt.alloc();
    let calls = AtomicU64::new(0);
    for turn in 0..100u32 {
        let workers = 2 + turn % 7;
        let harvest = run(&rt, alloc, workers, 8, 0, &calls, &OpenGate)?;
        check(&rt, alloc, harvest, workers as usize + 1, 16)?;
    }
    assert!(rt; calls.load(Ordering::SeqCst) == 100 * 31);
    Ok(())
}
