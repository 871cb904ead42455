// Files that are written whole, in memory and by the system.
ghost use Rattle.std.specs.Prelude.{◌≡◌, None, IfOk};

use crate::target::several_files::{OLD, target_of};
use mesh_outside::{FileTarget, MemoryTarget, WriteEnd, write_whole};
use std::alloc::{AllocError, Global};
use std::rt::Files;
use std::test::Fail;

const NEW: &[u8] = b"0123456789";

// A target that takes four bytes at once, and whose calls of these numbers fail. It has a file `out`
// and one beside it.
fn target(alloc: Global, failing: &[u64]) -> Result<MemoryTarget, AllocError>
    ensures { IfOk result (λ target. target.begun ≡ None) }
{
    target_of(alloc, 4, failing, ["out", "out.new"])
}

// These names hold these bytes.
fn hold(target: &MemoryTarget, held: &[(&str, Option<&[u8]>)]) -> bool {
    for (name, bytes) in held {
        if target.bytes_of(name) != *bytes {
            return false;
        }
    }
    true
}

// The file `out` is written with this end. Then these names hold these bytes.
fn ends(
    alloc: Global,
    target: &mut MemoryTarget,
    end: Result<(), WriteEnd>,
    held: &[(&str, Option<&[u8]>)],
) -> bool
    requires { target.old.begun ≡ None }
{
    write_whole(alloc, target, "out", NEW) == end && hold(target, held)
}

const FAULT: Result<(), WriteEnd> = Err(WriteEnd::WriteFault);

// The calls are `begin`, three times `write`, and `keep`. A call that fails is followed by `discard`.
static ENDS: [(&[u64], Result<(), WriteEnd>, &[u8], Option<&[u8]>); 9] = [
    (&[], Ok(()), NEW, None),
    (&[6], Ok(()), NEW, None),
    (&[1], FAULT, OLD, None),
    (&[2], FAULT, OLD, None),
    (&[3], FAULT, OLD, None),
    (&[4], FAULT, OLD, None),
    (&[5], FAULT, OLD, None),
    (&[3, 4], FAULT, OLD, Some(b"0123")),
    (&[5, 6], FAULT, OLD, Some(NEW)),
];

// If these calls fail, the file is written with this end. Then it holds these bytes, and the new file those.
fn ends_if<'a>(
    alloc: Global,
    failing: &[u64],
    end: Result<(), WriteEnd>,
    out: &'a [u8],
    left: Option<&'a [u8]>,
) -> bool {
    let held = [
        ("out", Some(out)),
        ("out.new", Some(OLD)),
        ("out.new-0", left),
    ];
    match target(alloc, failing) {
        Ok(mut target) => ends(alloc, &mut target, end, &held),
        Err(_) => false,
    }
}

#[test]
fn a_name_holds_all_new_bytes_or_what_it_held(rt: HostRuntime) {
    for &(failing, end, out, left) in &ENDS {
        assert!(rt; ends_if(rt.alloc(), failing, end, out, left));
    }
}

#[test]
fn a_new_file_takes_the_first_free_name(rt: HostRuntime) -> Result<(), Fail> {
    let alloc = rt.alloc();
    // two calls find the names taken
    let mut target = target(alloc, &[5, 6])?;
    target.put("out.new-0", OLD)?;
    target.put("out.new-1", OLD)?;
    let held = [
        ("out", Some(OLD)),
        ("out.new-0", Some(OLD)),
        ("out.new-1", Some(OLD)),
        ("out.new-2", Some(b"0123".as_slice())),
    ];
    assert!(rt; ends(alloc, &mut target, FAULT, &held));
    Ok(())
}

// Puts files of all names that a new file may have.
fn put_all_beside(alloc: Global, target: &mut MemoryTarget) -> Result<(), Fail>
    requires { target.old.begun ≡ None }
    ensures { target.new.begun ≡ None }
{
    for number in 0..100u32 {
        let path = format!(in alloc; "out.new-{number}")?;
        target.put(path.as_str(), OLD)?;
    }
    Ok(())
}

#[test]
fn no_file_is_written_if_all_names_for_a_new_one_are_taken(rt: HostRuntime) -> Result<(), Fail> {
    let alloc = rt.alloc();
    let mut target = target(alloc, &[])?;
    put_all_beside(alloc, &mut target)?;
    let held = [("out", Some(OLD)), ("out.new-99", Some(OLD))];
    assert!(rt; ends(alloc, &mut target, Err(WriteEnd::NamesTaken), &held));
    Ok(())
}

// Writes a file of the system.
fn write_file(rt: &impl Files, alloc: Global, name: &str, bytes: &[u8]) -> Result<(), WriteEnd> {
    let mut target = FileTarget::new(rt, alloc);
    write_whole(alloc, &mut target, name, bytes)
}

#[test]
fn a_file_of_the_system_is_written_whole(rt: HostRuntime) -> Result<(), Fail> {
    std::fs::write(&rt, "whole.out.new-0", OLD)?;
    for bytes in [OLD, NEW, b"".as_slice()] {
        assert!(rt; write_file(&rt, rt.alloc(), "whole.out", bytes) == Ok(()));
        let held = std::fs::read(&rt, "whole.out")?;
        assert!(rt; held.as_slice() == bytes);
    }
    let left = std::fs::read(&rt, "whole.out.new-0")?;
    assert!(rt; left.as_slice() == OLD);
    assert!(rt; !std::fs::exists(&rt, "whole.out.new-1")?);
    std::fs::remove_file(&rt, "whole.out")?;
    std::fs::remove_file(&rt, "whole.out.new-0")?;
    Ok(())
}

#[test]
fn a_file_of_the_system_that_cannot_be_written_leaves_no_other(
    rt: HostRuntime,
) -> Result<(), Fail> {
    std::fs::create_dir(&rt, "folder.out")?;
    for name in ["folder.out", "missing/whole.out"] {
        let end = write_file(&rt, rt.alloc(), name, NEW);
        assert!(rt; end == Err(WriteEnd::WriteFault));
    }
    assert!(rt; std::fs::metadata(&rt, "folder.out")?.is_dir());
    assert!(rt; !std::fs::exists(&rt, "folder.out.new-0")?);
    std::fs::remove_dir(&rt, "folder.out")?;
    Ok(())
}
