// The programs as functions.
use crate::boxes::{HIGH, LOW};
use ember_call::{Lent, LentFile, Outcome, command, mesh_command};
use std::alloc::Global;
use std::test::Fail;

// The words of a line.
fn words_in<'a>(alloc: Global, line: &'a str) -> Result<Vec<Lent<'a>>, Fail> {
    let mut words = Vec::new(alloc);
    for word in line.split(' ') {
        words.push(Lent {
            bytes: word.as_bytes(),
        })?;
    }
    Ok(words)
}

// Two meshes; the second file of a name doesn't count.
fn meshes<'a>(a: &'a [u8], b: &'a [u8]) -> [LentFile<'a>; 3] {
    [
        LentFile {
            name: b"a.obj",
            bytes: a,
        },
        LentFile {
            name: b"b.obj",
            bytes: b,
        },
        LentFile {
            name: b"a.obj",
            bytes: b"no mesh",
        },
    ]
}

// What ember-mesh gives for a line over these files.
fn given_by_mesh(alloc: Global, line: &str, files: &[LentFile]) -> Result<Outcome, Fail> {
    Ok(mesh_command(alloc, &words_in(alloc, line)?, files))
}

// What it gives over two boxes.
fn mesh(alloc: Global, line: &str) -> Result<Outcome, Fail> {
    given_by_mesh(alloc, line, &meshes(LOW, HIGH))
}

// What ember gives for a line over these files.
fn given_by_ember(alloc: Global, line: &str, files: &[LentFile]) -> Result<Outcome, Fail> {
    Ok(command(alloc, &words_in(alloc, line)?, files))
}

// So many files are written, the last of them with this name and this beginning.
fn is_written(given: &Outcome, files: usize, name: &str, start: &[u8]) -> bool {
    match given.files.last() {
        Some(last) => {
            given.status == 0
                && given.files.len() == files
                && last.name.as_str() == name
                && last.bytes.starts_with(start)
        }
        None => false,
    }
}

// The words are refused because of this file, and no file is written.
fn is_refused(given: &Outcome, status: u32, file: u32) -> bool {
    given.status == status && given.file == file && given.files.is_empty()
}

// The same because of this place in it.
fn is_refused_at(given: &Outcome, status: u32, file: u32, place: u64) -> bool {
    given.place == place && is_refused(given, status, file)
}

// The bytes begin like this. They are none if this is empty.
fn begins(bytes: &[u8], start: &[u8]) -> bool {
    bytes.starts_with(start) && bytes.is_empty() == start.is_empty()
}

// What goes to standard output and to standard error begins like this.
fn tells(given: &Outcome, out: &[u8], err: &[u8]) -> bool {
    begins(&given.out, out) && begins(&given.err, err)
}

// There is an output, and no file.
fn is_output(given: &Outcome) -> bool {
    given.status == 0 && !given.out.is_empty() && given.files.is_empty()
}

#[test]
fn a_difference_is_a_file(rt: HostRuntime) -> Result<(), Fail> {
    let given = mesh(rt.alloc(), "difference -o out.off a.obj b.obj")?;
    assert!(rt; is_written(&given, 1, "out.off", b"OFF\n"));
    assert!(rt; tells(&given, b"", b"ember-mesh: step "));
    Ok(())
}

#[test]
fn what_is_kept_comes_before_the_result(rt: HostRuntime) -> Result<(), Fail> {
    let line = "union --quiet --keep dir -o out.stl a.obj b.obj";
    let given = mesh(rt.alloc(), line)?;
    assert!(rt; is_written(&given, 5, "out.stl", b""));
    assert!(rt; given.err.is_empty());
    Ok(())
}

#[test]
fn a_name_that_no_file_has(rt: HostRuntime) -> Result<(), Fail> {
    let given = mesh(rt.alloc(), "union -o out.stl a.obj c.obj")?;
    let line = b"ember-mesh: c.obj: cannot be read (No such file or directory)\n";
    assert!(rt; is_refused(&given, 3, 2));
    assert!(rt; given.err.as_slice() == line.as_slice());
    Ok(())
}

#[test]
fn the_hole_of_a_mesh_has_a_place(rt: HostRuntime) -> Result<(), Fail> {
    let files = meshes(LOW, b"v 0 0 0\nv 1 0 0\nv 0 1 0\nf 1 2 3\n");
    let given = given_by_mesh(rt.alloc(), "union -o out.stl a.obj b.obj", &files)?;
    assert!(rt; is_refused_at(&given, 6, 2, 4));
    Ok(())
}

#[test]
fn the_version_goes_to_standard_output(rt: HostRuntime) -> Result<(), Fail> {
    let given = mesh(rt.alloc(), "--version")?;
    assert!(rt; given.status == 0);
    assert!(rt; tells(&given, b"ember-mesh ", b""));
    Ok(())
}

#[test]
fn words_that_are_no_text(rt: HostRuntime) {
    let words = [Lent { bytes: b"\xff" }];
    let files = meshes(LOW, HIGH);
    assert!(rt; mesh_command(rt.alloc(), &words, &files).status == 13);
    assert!(rt; command(rt.alloc(), &words, &files).status == 13);
}

#[test]
fn the_faces_of_a_box(rt: HostRuntime) -> Result<(), Fail> {
    let given = given_by_ember(rt.alloc(), "faces a.obj", &meshes(LOW, HIGH))?;
    assert!(rt; is_output(&given));
    Ok(())
}

#[test]
fn a_line_of_an_obj_is_the_place(rt: HostRuntime) -> Result<(), Fail> {
    let files = meshes(b"v 0 0 0\nv 1 0\n", HIGH);
    let given = given_by_ember(rt.alloc(), "faces a.obj", &files)?;
    assert!(rt; is_refused_at(&given, 5, 1, 2));
    assert!(rt; given.out.is_empty());
    Ok(())
}
