// The numbers of journals, and their line.
ghost use Rattle.std.specs.Prelude.{◌<◌, ◌^◌, length};
ghost use Rattle.std.specs.List.{sum_by};

use ember_job::{Entry, Journals, Kind};
use ember_report::{report_line, report_of};
use std::alloc::Global;
use std::process::Abort;
use std::test::Fail;

fn entry(path: u64, kind: Kind) -> Entry {
    Entry { path, kind }
}

// The line of journals and a number of faces.
fn check(
    rt: &impl Abort,
    alloc: Global,
    journals: &Journals,
    faces: u64,
    want: &[u8],
) -> Result<(), Fail>
    requires { sum_by length journals.now < 2 ^ 64 }
{
    let report = report_of(journals, faces);
    assert!(rt; report_line(alloc, &report)?.as_slice() == want);
    Ok(())
}

#[test]
fn entries_are_counted_by_their_kind(rt: HostRuntime) -> Result<(), Fail> {
    let alloc = rt.alloc();
    let first = vec![in alloc;
        entry(1, Kind::Halved),
        entry(2, Kind::Passed),
        entry(3, Kind::Halved),
    ]?;
    let second = vec![in alloc; entry(6, Kind::Leafed), entry(7, Kind::Leafed)]?;
    let journals = Journals::of(vec![in alloc; first, second, Vec::new(alloc)]?);
    check(
        &rt,
        alloc,
        &journals,
        26,
        b"boxes 5 leaves 2 skipped 1 faces 26\n",
    )
}

#[test]
fn nothing_was_visited(rt: HostRuntime) -> Result<(), Fail> {
    let journals = Journals::of(Vec::new(rt.alloc()));
    check(
        &rt,
        rt.alloc(),
        &journals,
        0,
        b"boxes 0 leaves 0 skipped 0 faces 0\n",
    )
}
