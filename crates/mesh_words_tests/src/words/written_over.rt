// Words of the second program's command line that would write over what they read, or that name twice
// what they write.
use crate::words::command_lines::{read, strings};
use crate::words::refusals::{is_refused, is_text};
use mesh_words::{Refusal, Setting, input_given, value_given};
use std::alloc::Global;
use std::test::Fail;

fn is_read(alloc: Global, words: &[&str]) -> bool {
    match read(alloc, words) {
        Ok(_command) => true,
        Err(_) => false,
    }
}

static SECOND_NAMES: [(&[&str], Setting); 5] = [
    (&["union", "-o", "x.stl", "a", "-o=x.stl"], Setting::Output),
    (&["snap", "-d=d", "a", "-d", "e"], Setting::Folder),
    (
        &["union", "--keep=d", "a", "--keep=e", "--workers=x"],
        Setting::Keep,
    ),
    (
        &["export", "--view=p", "a", "-o=x.stl", "--view", "q.html"],
        Setting::Page,
    ),
    (
        &["view", "-o", "x.html", "a", "-o", "b.html"],
        Setting::Output,
    ),
];

#[test]
fn second_names(rt: HostRuntime) {
    for &(words, option) in &SECOND_NAMES {
        assert!(rt; is_refused(rt.alloc(), words, Refusal::Twice(option)));
    }
}

static PAGES_OF_OTHER_NAMES: [(&[&str], Setting); 4] = [
    (&["view", "-o", "b.stl", "a.stl"], Setting::Output),
    (&["view", "-o", "html", "a.stl"], Setting::Output),
    (
        &["union", "-o", "x.stl", "--view=b.stl", "a.stl"],
        Setting::Page,
    ),
    (&["export", "-o=x.stl", "--view=", "a"], Setting::Page),
];

#[test]
fn pages_of_other_names(rt: HostRuntime) {
    for &(words, option) in &PAGES_OF_OTHER_NAMES {
        assert!(rt; is_refused(rt.alloc(), words, Refusal::PageEnding(option)));
    }
    for name in ["-o=A.HTML", "-o=a.Htm", "-o=a.stl.htm", "-o=b/../a.html"] {
        assert!(rt; is_read(rt.alloc(), &["view", "a.stl", "a.html", name]));
    }
}

static INPUTS_THAT_WOULD_BE_WRITTEN_OVER: [(&[&str], Setting, usize); 9] = [
    (
        &["view", "-o", "./a.html", "b", "a.html"],
        Setting::Output,
        1,
    ),
    (&["view", "-o", "d//a.htm", "d/./a.htm"], Setting::Output, 0),
    (
        &["union", "-o=x.stl", "--view=/p.html", "//p.html"],
        Setting::Page,
        0,
    ),
    (
        &["export", "--scene=s.html", "-o=x.stl", "--view=s.html", "d"],
        Setting::Page,
        1,
    ),
    (&["snap", "-d", ".", "b.obj", "1.obj"], Setting::Folder, 1),
    (&["snap", "-d", "d/", "a", "d/2.obj"], Setting::Folder, 1),
    (&["snap", "-d", "..", "../scene.json"], Setting::Folder, 0),
    (&["snap", "-d=", "/1.obj"], Setting::Folder, 0),
    (
        &["bool", "-o=x.stl", "--keep=d", "./d/doc.txt"],
        Setting::Keep,
        0,
    ),
];

#[test]
fn inputs_that_would_be_written_over(rt: HostRuntime) {
    for &(words, option, number) in &INPUTS_THAT_WOULD_BE_WRITTEN_OVER {
        let want = Refusal::OverInput(option, number);
        assert!(rt; is_refused(rt.alloc(), words, want));
    }
}

static OUTPUTS_THAT_WOULD_BE_WRITTEN_TWICE: [(&[&str], Setting); 6] = [
    (
        &["union", "-o", "d/1.obj", "--keep", "d", "a"],
        Setting::Keep,
    ),
    (
        &["bool", "--keep=d/", "-o=./d//2.obj", "a", "b", "--step=x"],
        Setting::Keep,
    ),
    (&["union", "-o=1.obj", "--keep=.", "a"], Setting::Keep),
    (
        &["difference", "-o", "x.html", "--view", "./x.html", "a"],
        Setting::Page,
    ),
    (
        &["union", "--keep=d", "-o=x.html", "--view=x.html", "d/1.obj"],
        Setting::Page,
    ),
    (
        &["export", "-o=d/x.htm", "--view=d/./x.htm", "e"],
        Setting::Page,
    ),
];

#[test]
fn outputs_that_would_be_written_twice(rt: HostRuntime) {
    for &(words, option) in &OUTPUTS_THAT_WOULD_BE_WRITTEN_TWICE {
        assert!(rt; is_refused(rt.alloc(), words, Refusal::OverOutput(option)));
    }
}

static OUTPUTS_BESIDE_OTHER_FILES: [&[&str]; 5] = [
    &["union", "-o", "d/2.obj", "--keep", "d", "a"],
    &["union", "-o", "1.obj", "--keep", "d", "a"],
    &["union", "-o", "d/1.stl", "--keep", "d", "a"],
    &["union", "-o", "d/1.OBJ", "--keep", "d", "a"],
    &["export", "-o", "x.stl", "--view", "x.html", "e"],
];

#[test]
fn outputs_beside_other_files(rt: HostRuntime) {
    for &words in &OUTPUTS_BESIDE_OTHER_FILES {
        assert!(rt; is_read(rt.alloc(), words));
    }
    // An input that would be written over is told first.
    let words = ["union", "-o", "d/1.obj", "--keep", "d", "d/1.obj"];
    let want = Refusal::OverInput(Setting::Keep, 0);
    assert!(rt; is_refused(rt.alloc(), &words, want));
}

static INPUTS_THAT_STAY: [&[&str]; 7] = [
    &["union", "-o", "a.stl", "./a.stl"],
    &["snap", "-d", ".", "2.obj"],
    &["snap", "-d", ".", "doc.txt"],
    &["snap", "-d", "d", "1.obj", "scene.json"],
    &["snap", "-d", "d", "e/../d/1.obj"],
    &["snap", "-d", "d", "/d/1.obj"],
    &["union", "-o", "1.obj", "--keep", "d", "1.obj"],
];

#[test]
fn inputs_that_stay(rt: HostRuntime) {
    for &words in &INPUTS_THAT_STAY {
        assert!(rt; is_read(rt.alloc(), words));
    }
}

static INPUTS: [(usize, &str); 3] = [(0, "d"), (1, "s"), (2, "")];

// The words have these inputs, and this page, but no folder of a Boolean.
fn are_named(alloc: Global, words: &[String]) -> bool {
    for &(number, want) in &INPUTS {
        if !is_text(input_given(alloc, words, number), want) {
            return false;
        }
    }
    is_text(value_given(alloc, words, Setting::Page), "p")
        && is_text(value_given(alloc, words, Setting::Keep), "")
}

#[test]
fn names_of_inputs_and_targets(rt: HostRuntime) -> Result<(), Fail> {
    let words = ["export", "d", "--view=p", "--scene=s", "-o", "x.stl"];
    let words = strings(rt.alloc(), &words)?;
    assert!(rt; are_named(rt.alloc(), &words));
    assert!(rt; is_text(input_given(rt.alloc(), &[], 0), ""));
    Ok(())
}
