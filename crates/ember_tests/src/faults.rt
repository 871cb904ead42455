// Every call of a device fails in turn.
use crate::calls::{Named, file_set, give, only, shelf_of, sink_of, words_of};
use crate::texts::{C, D};
use ember_io::{Calls, MemoryShelf, MemorySink, Shelf, Sink};
use ember_run::{Status, run, run_one};
use std::alloc::Global;
use std::sync::Wait;
use std::test::Fail;
use std::thread::Threads;
use steal_pool::OpenGate;

const UNION: &str = "bool --expr m1|m2 --workers 2 c.obj d.obj";

const FILES: Named = &[("c.obj", C), ("d.obj", D)];

// A place for the line on err, of which every call fails, or none.
fn err_sink(alloc: Global, fails: bool) -> Option<MemorySink> {
    if !fails {
        return sink_of(alloc, 1000);
    }
    let mut calls = Vec::new(alloc);
    for call in 1..100u64 {
        calls.push(call).ok()?;
    }
    MemorySink::new(alloc, 1000, 10, Calls::of(calls)).ok()
}

// A shelf of both files, which gives 64 bytes at a time, and whose call of that number fails.
fn failing_shelf(alloc: Global, call: u64) -> Option<MemoryShelf> {
    MemoryShelf::new(alloc, file_set(alloc, FILES)?, 64, only(alloc, call)?).ok()
}

// By which call, and whether each call of err fails.
#[derive(Clone, Copy)]
struct Way {
    alone: bool,
    err_fails: bool,
}

static WAYS: [Way; 4] = [
    Way {
        alone: false,
        err_fails: false,
    },
    Way {
        alone: false,
        err_fails: true,
    },
    Way {
        alone: true,
        err_fails: false,
    },
    Way {
        alone: true,
        err_fails: true,
    },
];

// What the words of the union give over these devices, by `run` or by `run_one`.
fn unite<R: Threads + Wait + Sync, S: Shelf, O: Sink>(
    rt: &R,
    alloc: Global,
    shelf: &mut S,
    out: &mut O,
    way: &Way,
) -> Option<Status> {
    let words = words_of(alloc, UNION)?;
    let mut err = err_sink(alloc, way.err_fails)?;
    if way.alone {
        return Some(run_one(alloc, &words, shelf, out, &mut err, &OpenGate));
    }
    Some(run(rt, alloc, &words, shelf, out, &mut err, &OpenGate))
}

// The document of the union.
fn document<R: Threads + Wait + Sync>(rt: &R, alloc: Global) -> Option<Vec<u8>> {
    let given = give(rt, alloc, &words_of(alloc, UNION)?, FILES)?;
    Vec::from_slice(alloc, given.out.bytes()).ok()
}

// A call ended like this, and out has taken these bytes.
fn is_taken(given: Status, out: &MemorySink, status: Status, bytes: &[u8]) -> bool {
    given == status && out.bytes() == bytes
}

// Whether the union has this status and these bytes, if this call of the shelf fails.
fn is_read<R: Threads + Wait + Sync>(
    rt: &R,
    alloc: Global,
    call: u64,
    way: &Way,
    status: Status,
    bytes: &[u8],
) -> Option<bool> {
    let mut shelf = failing_shelf(alloc, call)?;
    let mut out = sink_of(alloc, 100_000)?;
    let given = unite(rt, alloc, &mut shelf, &mut out, way)?;
    Some(is_taken(given, &out, status, bytes))
}

// Each file has two pieces of at most 64 bytes. Its calls are its opening, its pieces, and the one that finds its end.
static FILES_OF_CALLS: [(u64, u32); 8] = [
    (1, 1),
    (2, 1),
    (3, 1),
    (4, 1),
    (5, 2),
    (6, 2),
    (7, 2),
    (8, 2),
];

#[test]
fn each_call_of_the_shelf_fails_in_turn(rt: HostRuntime) -> Result<(), Fail> {
    let alloc = rt.alloc();
    for way in &WAYS {
        for &(call, file) in &FILES_OF_CALLS {
            let fault = Status::ReadFault(file);
            assert!(rt; is_read(&rt, alloc, call, way, fault, b"") == Some(true));
        }
    }
    let whole = document(&rt, alloc).ok_or("no document")?;
    for way in &WAYS {
        assert!(rt; is_read(&rt, alloc, 9, way, Status::Done, &whole) == Some(true));
    }
    Ok(())
}

// A call ended as it should if an output takes so many pieces of 100 bytes. The call behind the last piece lets the
// output take what it holds, and none is behind that one.
fn is_cut_at(status: Status, out: &MemorySink, before: usize, whole: &[u8]) -> bool {
    let taken = whole.len().min(before.saturating_mul(100));
    let want = if before > whole.len().div_ceil(100) {
        Status::Done
    } else {
        Status::WriteFault
    };
    is_taken(status, out, want, &whole[..taken])
}

// Whether the output takes so many pieces of 100 bytes if the call behind them fails, and that is told.
fn is_cut<R: Threads + Wait + Sync>(
    rt: &R,
    alloc: Global,
    before: usize,
    way: &Way,
    whole: &[u8],
) -> Option<bool> {
    let failing = only(alloc, (before as u64).saturating_add(1))?;
    let mut shelf = shelf_of(alloc, FILES)?;
    let mut out = MemorySink::new(alloc, 100_000, 100, failing).ok()?;
    let status = unite(rt, alloc, &mut shelf, &mut out, way)?;
    Some(is_cut_at(status, &out, before, whole))
}

#[test]
fn each_call_of_the_output_fails_in_turn(rt: HostRuntime) -> Result<(), Fail> {
    let whole = document(&rt, rt.alloc()).ok_or("no document")?;
    let calls = whole.len().div_ceil(100).saturating_add(2);
    for before in 0..calls {
        for way in &WAYS {
            assert!(rt; is_cut(&rt, rt.alloc(), before, way, &whole) == Some(true));
        }
    }
    Ok(())
}

// Whether an output with room for 100 bytes takes the first of the union, and its end is told.
fn is_full<R: Threads + Wait + Sync>(
    rt: &R,
    alloc: Global,
    way: &Way,
    whole: &[u8],
) -> Option<bool> {
    let mut shelf = shelf_of(alloc, FILES)?;
    let mut out = sink_of(alloc, 100)?;
    let status = unite(rt, alloc, &mut shelf, &mut out, way)?;
    let taken = whole.len().min(100);
    Some(is_taken(status, &out, Status::WriteFault, &whole[..taken]))
}

#[test]
fn an_output_with_little_room(rt: HostRuntime) -> Result<(), Fail> {
    let whole = document(&rt, rt.alloc()).ok_or("no document")?;
    assert!(rt; whole.len() > 100);
    for way in &WAYS {
        assert!(rt; is_full(&rt, rt.alloc(), way, &whole) == Some(true));
    }
    Ok(())
}
