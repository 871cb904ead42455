// Several files, in memory and by the system.
ghost use Rattle.std.specs.Prelude.{◌≡◌, ◌<◌, None, IfOk};

use ember_io::Calls;
use mesh_outside::{FileTarget, MemoryTarget, NamedFile, Target, Unwritten, WriteEnd, write_each};
use std::alloc::{AllocError, Global};
use std::rt::Files;
use std::test::Fail;

/// What a file holds before.
pub const OLD: &[u8] = b"old";

/// A target that takes so many bytes at once, whose calls of these numbers fail, and that has old files of these names.
pub fn target_of(
    alloc: Global,
    piece: usize,
    failing: &[u64],
    names: [&str; 2],
) -> Result<MemoryTarget, AllocError>
    requires { 0 < piece }
    ensures { IfOk result (λ target. target.begun ≡ None) }
{
    let failing = Calls::of(Vec::from_slice(alloc, failing)?);
    let mut target = MemoryTarget::new(alloc, piece, failing);
    target.put(names[0], OLD)?;
    target.put(names[1], OLD)?;
    Ok(target)
}

fn file(alloc: Global, name: &str, bytes: &[u8]) -> Result<NamedFile, AllocError> {
    let name = String::from_str(alloc, name)?;
    let bytes = Vec::from_slice(alloc, bytes)?;
    Ok(NamedFile { name, bytes })
}

// The files `a`, `b` and `c`, and `b` again.
fn files(alloc: Global) -> Result<Vec<NamedFile>, AllocError> {
    let mut files = Vec::new(alloc);
    for (name, bytes) in [("a", b"1"), ("b", b"2"), ("c", b"3"), ("b", b"4")] {
        files.push(file(alloc, name, bytes)?)?;
    }
    Ok(files)
}

// The names `a`, `b` and `c` hold these bytes.
fn hold(target: &MemoryTarget, held: &[Option<&[u8]>; 3]) -> bool {
    target.bytes_of("a") == held[0]
        && target.bytes_of("b") == held[1]
        && target.bytes_of("c") == held[2]
}

// All files are written, or the one of this name isn't because of a fault. Then `a`, `b` and `c` hold these bytes.
fn are_written(
    alloc: Global,
    failing: &[u64],
    unwritten: Option<&str>,
    held: &[Option<&[u8]>; 3],
) -> bool {
    // All bytes are taken at once.
    let Ok(mut target) = target_of(alloc, 100, failing, ["a", "c"]) else {
        return false;
    };
    let Ok(files) = files(alloc) else {
        return false;
    };
    let end = match unwritten {
        None => Ok(()),
        Some(name) => Err(Unwritten {
            name,
            why: WriteEnd::WriteFault,
        }),
    };
    write_each(alloc, &mut target, &files) == end && hold(&target, held)
}

const KEPT: Option<&[u8]> = Some(OLD);

const ONE: Option<&[u8]> = Some(b"1");

const TWO: Option<&[u8]> = Some(b"2");

const THREE: Option<&[u8]> = Some(b"3");

const FOUR: Option<&[u8]> = Some(b"4");

// Calls that fail, the file that isn't written, and what `a`, `b` and `c` hold.
type Row = (
    &'static [u64],
    Option<&'static str>,
    Option<&'static [u8]>,
    Option<&'static [u8]>,
    Option<&'static [u8]>,
);

// A file takes the calls `begin`, `write` and `keep`.
static ENDS: [Row; 5] = [
    (&[], None, ONE, FOUR, THREE),
    (&[1], Some("a"), KEPT, None, KEPT),
    (&[5], Some("b"), ONE, None, KEPT),
    (&[9], Some("c"), ONE, TWO, KEPT),
    (&[10], Some("b"), ONE, TWO, THREE),
];

#[test]
fn files_before_one_that_is_not_written_are_written(rt: HostRuntime) {
    for &(failing, unwritten, a, b, c) in &ENDS {
        assert!(rt; are_written(rt.alloc(), failing, unwritten, &[a, b, c]));
    }
}

fn is_made(rt: &impl Files, alloc: Global, name: &str) -> bool {
    FileTarget::new(rt, alloc).make_folder(name).is_ok()
}

#[test]
fn a_folder_is_made_with_those_above_it(rt: HostRuntime) -> Result<(), Fail> {
    assert!(rt; is_made(&rt, rt.alloc(), "outer.out/inner.out"));
    assert!(rt; is_made(&rt, rt.alloc(), "outer.out/inner.out"));
    assert!(rt; std::fs::metadata(&rt, "outer.out/inner.out")?.is_dir());
    std::fs::write(&rt, "outer.out/file", OLD)?;
    assert!(rt; !is_made(&rt, rt.alloc(), "outer.out/file"));
    assert!(rt; !is_made(&rt, rt.alloc(), "outer.out/file/inner.out"));
    std::fs::remove_file(&rt, "outer.out/file")?;
    std::fs::remove_dir(&rt, "outer.out/inner.out")?;
    std::fs::remove_dir(&rt, "outer.out")?;
    Ok(())
}
