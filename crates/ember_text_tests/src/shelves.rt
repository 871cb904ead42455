// Files that are read from shelves.
use ember_io::{Calls, FileSet, FileShelf, MemoryShelf, ReadEnd, SafeShelf, Shelf, read_all};
use std::alloc::Global;
use std::process::Abort;
use std::test::Fail;

// One file of five bytes, by the name `a`.
fn five_bytes(alloc: Global) -> Result<FileSet, Fail> {
    let mut files = Vec::new(alloc);
    let Ok(()) = files.push((String::from_str(alloc, "a")?, b"12345".to_vec(alloc)?)) else {
        return Err(Fail::from("memory"));
    };
    Ok(FileSet::of(files))
}

// A file that is read from the shelf has these bytes, or has this end.
fn check<S: Shelf>(
    rt: &impl Abort,
    alloc: Global,
    shelf: &mut S,
    name: &str,
    most: u32,
    want: Result<&[u8], ReadEnd>,
) {
    match (read_all(alloc, shelf, name, 1, u64::from(most)), want) {
        (Ok(bytes), Ok(want)) => assert!(rt; bytes.as_slice() == want),
        (Err(end), Err(want)) => assert!(rt; end == want),
        _ => assert!(rt; false),
    }
}

#[test]
fn a_file_is_read_whole_from_pieces(rt: HostRuntime) -> Result<(), Fail> {
    let alloc = rt.alloc();
    let none = Calls::of(Vec::new(alloc));
    let mut shelf = MemoryShelf::new(alloc, five_bytes(alloc)?, 2, none)?;
    check(&rt, alloc, &mut shelf, "a", 5, Ok(b"12345"));
    Ok(())
}

static A_FILE_WITH_A_BYTE_MORE_THAN_ALLOWED_IS_TOO_LONG: [(&str, u32, Result<&[u8], ReadEnd>); 3] =
    [
        ("a", 4, Err(ReadEnd::TooLong(5))),
        ("a", 5, Ok(b"12345")),
        ("b", 4, Ok(b"")),
    ];

#[test]
fn a_file_with_a_byte_more_than_allowed_is_too_long(rt: HostRuntime) -> Result<(), Fail> {
    let alloc = rt.alloc();
    let mut shelf = SafeShelf::new(alloc, five_bytes(alloc)?)?;
    for &(name, most, want) in &A_FILE_WITH_A_BYTE_MORE_THAN_ALLOWED_IS_TOO_LONG {
        check(&rt, alloc, &mut shelf, name, most, want);
    }
    Ok(())
}

static A_FAILING_CALL_AND_AN_UNKNOWN_NAME_ARE_FAULTS: [(&str, Result<&[u8], ReadEnd>); 3] = [
    ("a", Err(ReadEnd::ReadFault)),
    ("b", Err(ReadEnd::ReadFault)),
    ("a", Ok(b"12345")),
];

#[test]
fn a_failing_call_and_an_unknown_name_are_faults(rt: HostRuntime) -> Result<(), Fail> {
    let alloc = rt.alloc();
    let third = Calls::of(vec![in alloc; 3]?);
    let mut shelf = MemoryShelf::new(alloc, five_bytes(alloc)?, 2, third)?;
    for &(name, want) in &A_FAILING_CALL_AND_AN_UNKNOWN_NAME_ARE_FAULTS {
        check(&rt, alloc, &mut shelf, name, 10, want);
    }
    Ok(())
}

#[test]
fn a_file_of_the_system_is_read(rt: HostRuntime) -> Result<(), Fail> {
    let alloc = rt.alloc();
    std::fs::write(&rt, "scratch.obj", "v 0 0 0\n")?;
    let mut shelf = FileShelf::new(&rt);
    check(&rt, alloc, &mut shelf, "scratch.obj", 8, Ok(b"v 0 0 0\n"));
    check(
        &rt,
        alloc,
        &mut shelf,
        "missing.obj",
        8,
        Err(ReadEnd::ReadFault),
    );
    Ok(())
}

#[test]
fn lists_of_files_and_calls_lend_and_give_back_their_vectors(rt: HostRuntime) -> Result<(), Fail> {
    let alloc = rt.alloc();
    let files = five_bytes(alloc)?;
    assert!(rt; files.items().len() == 1);
    let files = files.into_vec();
    assert!(rt; files.len() == 1);
    assert!(rt; (files[0].0.as_str(), files[0].1.as_slice()) == ("a", b"12345".as_slice()));
    let calls = Calls::of(vec![in alloc; 7]?);
    assert!(rt; calls.items() == [7].as_slice());
    assert!(rt; calls.into_vec().as_slice() == [7].as_slice());
    Ok(())
}
