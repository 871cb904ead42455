// A page, or one of several files, that can't be written.
use crate::boxes::{HIGH, LOW};
use crate::calls::{BEFORE, Given, Named, give, lacks, none, only};
use ember_io::Calls;
use std::alloc::Global;
use std::test::Fail;

const FILES: Named<'static> = &[("a.obj", LOW), ("b.obj", HIGH)];

// A triangle alone, which isn't closed. A tenth is no binary fraction.
const ALONE: Named<'static> = &[("a.obj", b"v 0 0 0\nv 1.5 0 0\nv 0 -2 0.1\nf 1 2 3\n")];

// What a difference with all its files gives if these calls of the target fail.
fn give_all(alloc: Global, target_calls: Calls) -> Option<Given> {
    let line = "difference --quiet --keep dir --view page.html -o out.stl a.obj b.obj";
    give(alloc, line, FILES, none(alloc), target_calls, 10_000)
}

// The names in the order in which they are written.
const NAMES: [&str; 6] = [
    "dir/1.obj",
    "dir/2.obj",
    "dir/scene.json",
    "dir/doc.txt",
    "page.html",
    "out.stl",
];

// Whether the names hold what they hold after the whole call, up to this one, and then what they held before.
fn are_written_up_to(given: &Given, whole: &Given, file: usize) -> bool {
    for (index, name) in NAMES.iter().enumerate() {
        let held = if index < file { whole.held(name) } else { b"" };
        let held = if *name == "out.stl" { BEFORE } else { held };
        if given.held(name) != held {
            return false;
        }
    }
    true
}

// The call has failed to write, with this line.
fn is_unwritten(given: &Given, line: &[u8]) -> bool {
    given.status.number() == 4 && given.err.bytes() == line
}

// Whether the call ends with this line if this call of the target fails, and only the files before this one are
// written.
fn ends_at(alloc: Global, whole: &Given, file: usize, call: u64, line: &[u8]) -> Option<bool> {
    let given = give_all(alloc, only(alloc, call)?)?;
    Some(is_unwritten(&given, line) && are_written_up_to(&given, whole, file))
}

// The calls of the target: the folder is made, and each file is begun, written and kept. Its first
// one may fail, since a folder that isn't there is told of its first file. The document takes two
// pieces, and the page more.
static FILES_AND_CALLS: [(usize, u64, &[u8]); 5] = [
    (0, 2, b"ember-mesh: cannot write dir/1.obj\n"),
    (1, 5, b"ember-mesh: cannot write dir/2.obj\n"),
    (2, 8, b"ember-mesh: cannot write dir/scene.json\n"),
    (3, 11, b"ember-mesh: cannot write dir/doc.txt\n"),
    (4, 15, b"ember-mesh: cannot write page.html\n"),
];

#[test]
fn files_before_one_that_cannot_be_written_are_there(rt: HostRuntime) -> Result<(), Fail> {
    let first = only(rt.alloc(), 1).ok_or("no memory")?;
    let whole = give_all(rt.alloc(), first).ok_or("no memory")?;
    assert!(rt; whole.status.number() == 0);
    for &(file, call, line) in &FILES_AND_CALLS {
        assert!(rt; ends_at(rt.alloc(), &whole, file, call, line) == Some(true));
    }
    Ok(())
}

// A page over what out.html holds, if these calls of the target fail.
fn give_page(alloc: Global, target_calls: Calls) -> Option<Given> {
    let line = "view -o out.html a.obj";
    give(alloc, line, ALONE, none(alloc), target_calls, 10_000)
}

const UNWRITTEN: &[u8] = b"ember-mesh: cannot write out.html\n";

// The page stays as it was, and no new file is left.
fn is_old_page(given: &Given) -> bool {
    given.held("out.html") == BEFORE && lacks(given, "out.html.new-0")
}

// Whether it stays so if this call of the target fails, and that is told.
fn is_page_kept(alloc: Global, call: u64) -> Option<bool> {
    let given = give_page(alloc, only(alloc, call)?)?;
    Some(is_unwritten(&given, UNWRITTEN) && is_old_page(&given))
}

fn is_page(given: &Given) -> bool {
    given.status.number() == 0 && given.held("out.html").starts_with(b"<!doctype html>\n")
}

#[test]
fn a_page_that_cannot_be_written(rt: HostRuntime) {
    // The new file is begun, and takes the page piece by piece.
    for call in [1u64, 2, 3] {
        assert!(rt; is_page_kept(rt.alloc(), call) == Some(true));
    }
    let given = give_page(rt.alloc(), none(rt.alloc()));
    assert!(rt; matches!(&given, Some(given) if is_page(given)));
}
