// Calls of a device fail in turn.
use crate::boxes::{HIGH, LOW};
use crate::calls::{BEFORE, Given, Named, give, lacks, none, only};
use ember_io::Calls;
use std::alloc::Global;

const FILES: Named<'static> = &[("a.obj", LOW), ("b.obj", HIGH)];

const UNION: &str = "union --quiet -o out.stl a.obj b.obj";

// What a union gives if these calls of the shelf fail, and these of the target.
fn give_union(alloc: Global, shelf_calls: Calls, target_calls: Calls) -> Option<Given> {
    give(alloc, UNION, FILES, shelf_calls, target_calls, 10_000)
}

// Whether a union has this status and this line. If it isn't done, out.stl holds what it held before.
fn is_told(given: &Given, status: u8, line: &[u8]) -> bool {
    given.status.number() == status
        && given.err.bytes() == line
        && (given.bytes() == BEFORE) == (status != 0)
}

// Whether it is told like this if this call of the shelf fails.
fn is_told_of_shelf(alloc: Global, call: u64, status: u8, line: &[u8]) -> Option<bool> {
    let given = give_union(alloc, only(alloc, call)?, none(alloc))?;
    Some(is_told(&given, status, line))
}

const FIRST: &[u8] = b"ember-mesh: a.obj: cannot be read\n";

const SECOND: &[u8] = b"ember-mesh: b.obj: cannot be read\n";

// Of each file: its opening, one piece, and the one that finds its end. There is no seventh call.
static CALLS_OF_THE_SHELF: [(u64, u8, &[u8]); 7] = [
    (1, 3, FIRST),
    (2, 3, FIRST),
    (3, 3, FIRST),
    (4, 3, SECOND),
    (5, 3, SECOND),
    (6, 3, SECOND),
    (7, 0, b""),
];

#[test]
fn each_call_of_the_shelf_fails_in_turn(rt: HostRuntime) {
    for &(call, status, line) in &CALLS_OF_THE_SHELF {
        assert!(rt; is_told_of_shelf(rt.alloc(), call, status, line) == Some(true));
    }
}

// Whether it is told like this if this call of the target fails, and no new file is left.
fn is_told_of_target(alloc: Global, call: u64, status: u8, line: &[u8]) -> Option<bool> {
    let given = give_union(alloc, none(alloc), only(alloc, call)?)?;
    Some(is_told(&given, status, line) && lacks(&given, "out.stl.new-0"))
}

const UNWRITTEN: &[u8] = b"ember-mesh: cannot write out.stl\n";

// The new file is begun, takes the bytes at once, and takes the name. There is no fourth call.
static CALLS_OF_THE_TARGET: [(u64, u8, &[u8]); 4] = [
    (1, 4, UNWRITTEN),
    (2, 4, UNWRITTEN),
    (3, 4, UNWRITTEN),
    (4, 0, b""),
];

#[test]
fn each_call_of_the_target_fails_in_turn(rt: HostRuntime) {
    for &(call, status, line) in &CALLS_OF_THE_TARGET {
        assert!(rt; is_told_of_target(rt.alloc(), call, status, line) == Some(true));
    }
}

// A call that writes to standard output, which takes ten bytes, has failed.
fn is_output_full(given: &Given) -> bool {
    given.status.number() == 4
        && given.out.bytes().len() == 10
        && given.err.bytes() == b"ember-mesh: cannot write to standard output\n".as_slice()
}

#[test]
fn a_sink_that_fails_for_help_is_a_write_fault(rt: HostRuntime) {
    let none_fails = none(rt.alloc());
    let given = give(rt.alloc(), "help", &[], none(rt.alloc()), none_fails, 10);
    assert!(rt; matches!(&given, Some(given) if is_output_full(given)));
}
