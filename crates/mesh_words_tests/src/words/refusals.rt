// Words of the second program's command line that are refused.
use crate::words::command_lines::{is_boolean_of, read, strings};
use ember_words::Text;
use mesh_words::{Refusal, Setting, WordsFault, output_given, step_given};
use std::alloc::{AllocError, Global};
use std::test::Fail;

/// The words are refused for this reason.
pub fn is_refused(alloc: Global, words: &[&str], why: Refusal) -> bool {
    match read(alloc, words) {
        Ok(_command) => false,
        Err(fault) => fault == WordsFault::Refused(why),
    }
}

static WORDS_THAT_ARE_REFUSED: [(&[&str], Refusal); 24] = [
    (&[], Refusal::NoCommand),
    (&["snaps", "a.stl"], Refusal::UnknownCommand),
    (&["Union"], Refusal::UnknownCommand),
    (&["union", "a", "--views=p"], Refusal::UnknownOption(2)),
    (&["union", "a", "--keep"], Refusal::NoValue),
    (
        &["bool", "-d", "x", "a", "--scene=s"],
        Refusal::NotFor(Setting::Folder),
    ),
    (&["union", "--"], Refusal::UnknownOption(1)),
    (&["union", "-", "a", "-"], Refusal::SecondInput),
    (&["union", "-"], Refusal::NoOutput),
    (&["union", "-o", "-", "a"], Refusal::NoFormat),
    (
        &["union", "-o", "-", "--format=step", "a"],
        Refusal::UnknownFormat,
    ),
    (
        &["union", "-o", "x.stl", "--format=stl", "a"],
        Refusal::NeedlessFormat,
    ),
    (&["union", "--steps=1"], Refusal::UnknownOption(1)),
    (&["union", "--quiet=1", "-o"], Refusal::UnknownOption(1)),
    (&["union", "a", "-o"], Refusal::NoValue),
    (&["union", "-o", "--help"], Refusal::NoFiles),
    (&["bool", "-o", "x.stl", "a"], Refusal::NoExpression),
    (&["union", "--expr", "m1", "a"], Refusal::NeedlessExpression),
    (&["union", "a"], Refusal::NoOutput),
    (&["union", "-o", "x.gltf", "a"], Refusal::OutputEnding),
    (&["union", "-o", "stl", "a"], Refusal::OutputEnding),
    (&["info"], Refusal::NoFiles),
    (&["info", "a", "--quiet"], Refusal::UnknownOption(2)),
    (&["info", "--help", "-o=x.stl"], Refusal::UnknownOption(2)),
];

#[test]
fn words_that_are_refused(rt: HostRuntime) {
    for &(words, want) in &WORDS_THAT_ARE_REFUSED {
        assert!(rt; is_refused(rt.alloc(), words, want));
    }
}

static STEPS_WORKERS_AND_DIGITS_THAT_ARE_REFUSED: [(&[&str], Refusal); 10] = [
    (
        &["union", "-o", "x.stl", "--step", "0.00e3", "a"],
        Refusal::NotAStep,
    ),
    (
        &["union", "-o", "x.stl", "--step", "-1", "a"],
        Refusal::NotAStep,
    ),
    (
        &["union", "-o", "x.stl", "--step", "Nice", "a"],
        Refusal::NotAStep,
    ),
    (&["union", "-o", "x.stl", "--step=", "a"], Refusal::NotAStep),
    (
        &["union", "-o", "x.stl", "--workers", "0", "a"],
        Refusal::Workers,
    ),
    (
        &["union", "-o", "x.stl", "--workers=65", "a"],
        Refusal::Workers,
    ),
    (
        &["union", "-o", "x.stl", "--workers", "+4", "a"],
        Refusal::Workers,
    ),
    (
        &["union", "-o", "x.stl", "--digits", "18", "a"],
        Refusal::Digits,
    ),
    (
        &["union", "-o", "x.stl", "--digits", "-1", "a"],
        Refusal::Digits,
    ),
    (&["union", "-o", "x.stl", "--digits=", "a"], Refusal::Digits),
];

#[test]
fn steps_workers_and_digits_that_are_refused(rt: HostRuntime) {
    for &(words, want) in &STEPS_WORKERS_AND_DIGITS_THAT_ARE_REFUSED {
        assert!(rt; is_refused(rt.alloc(), words, want));
    }
}

static VIEWS_THAT_ARE_REFUSED: [(&[&str], Refusal); 10] = [
    (&["view"], Refusal::NoFiles),
    (&["view", "--step=1", "-o=p"], Refusal::NoFiles),
    (&["view", "a"], Refusal::NoOutput),
    (&["view", "a", "-o"], Refusal::NoValue),
    (
        &["view", "a", "--keep", "d"],
        Refusal::NotFor(Setting::Keep),
    ),
    (
        &["view", "--quiet", "a", "--step", "x"],
        Refusal::NotFor(Setting::Step),
    ),
    (
        &["view", "a", "-o=p", "--digits=3", "--expr=m1"],
        Refusal::NotFor(Setting::Digits),
    ),
    (
        &["view", "--expr", "m1", "a"],
        Refusal::NotFor(Setting::Expression),
    ),
    (
        &["view", "--workers", "0", "a"],
        Refusal::NotFor(Setting::Workers),
    ),
    (&["view", "-o", "p", "--step=1"], Refusal::NoFiles),
];

#[test]
fn views_that_are_refused(rt: HostRuntime) {
    for &(words, want) in &VIEWS_THAT_ARE_REFUSED {
        assert!(rt; is_refused(rt.alloc(), words, want));
    }
    assert!(rt; Setting::Workers.name() == "--workers");
    assert!(rt; Setting::Output.name() == "-o");
}

static SNAPS_THAT_ARE_REFUSED: [(&[&str], Refusal); 8] = [
    (&["snap"], Refusal::NoFiles),
    (&["snap", "-o=x.stl", "--step=0"], Refusal::NoFiles),
    (&["snap", "a"], Refusal::NoFolder),
    (&["snap", "a", "-d"], Refusal::NoValue),
    (&["snap", "a", "-do"], Refusal::UnknownOption(2)),
    (
        &["snap", "a", "--step=0", "-o", "x.stl"],
        Refusal::NotFor(Setting::Output),
    ),
    (
        &["snap", "a", "--workers=4"],
        Refusal::NotFor(Setting::Workers),
    ),
    (&["snap", "a", "-d", "d", "--step=0"], Refusal::NotAStep),
];

#[test]
fn snaps_that_are_refused(rt: HostRuntime) {
    for &(words, want) in &SNAPS_THAT_ARE_REFUSED {
        assert!(rt; is_refused(rt.alloc(), words, want));
    }
}

static EXPORTS_THAT_ARE_REFUSED: [(&[&str], Refusal); 10] = [
    (
        &["export", "--scene=-", "-o", "x.stl", "-"],
        Refusal::SecondInput,
    ),
    (&["export", "-o", "x.stl"], Refusal::NotOneDocument),
    (
        &["export", "-o", "x.stl", "a", "a", "--step=1"],
        Refusal::NotOneDocument,
    ),
    (&["export", "a", "--step"], Refusal::NoValue),
    (
        &["export", "a", "-o=x", "--step=1", "--keep=d"],
        Refusal::NotFor(Setting::Step),
    ),
    (
        &["export", "--expr=m1", "a"],
        Refusal::NotFor(Setting::Expression),
    ),
    (&["export", "a"], Refusal::NoOutput),
    (
        &["export", "a", "-o", "x.html", "--digits=x"],
        Refusal::OutputEnding,
    ),
    (
        &["export", "a", "-o", "x.off", "--digits=18"],
        Refusal::Digits,
    ),
    (
        &["export", "a", "-o", "x.off", "--digits=17", "--quiet=1"],
        Refusal::UnknownOption(5),
    ),
];

#[test]
fn exports_that_are_refused(rt: HostRuntime) {
    for &(words, want) in &EXPORTS_THAT_ARE_REFUSED {
        assert!(rt; is_refused(rt.alloc(), words, want));
    }
}

static VALUES_THAT_ARE_REFUSED_ARE_KNOWN: [(&[&str], &str, &str); 5] = [
    (&["union", "-o", "x.3mf", "--step=1=2", "a"], "x.3mf", "1=2"),
    (
        &["union", "--step", "1", "-ox", "a", "--step", "-1"],
        "",
        "",
    ),
    (&["union", "--step", "1", "a", "--step", "-1"], "", "-1"),
    (&["union", "a"], "", ""),
    (&[], "", ""),
];

/// What is given is this text.
pub fn is_text(given: Result<Text, AllocError>, want: &str) -> bool {
    match given {
        Ok(text) => text.as_str() == want,
        Err(_) => false,
    }
}

// The words give this output and this step.
fn are_given(alloc: Global, words: &[&str], output: &str, step: &str) -> bool {
    match strings(alloc, words) {
        Ok(strings) => {
            is_text(output_given(alloc, &strings), output)
                && is_text(step_given(alloc, &strings), step)
        }
        Err(_) => false,
    }
}

#[test]
fn values_that_are_refused_are_known(rt: HostRuntime) {
    for &(words, output, step) in &VALUES_THAT_ARE_REFUSED_ARE_KNOWN {
        assert!(rt; are_given(rt.alloc(), words, output, step));
    }
}

#[test]
fn at_most_64_files(rt: HostRuntime) -> Result<(), Fail> {
    let mut words = Vec::new(rt.alloc());
    for word in ["union", "-o", "x.stl"] {
        words.push(word)?;
    }
    for _file in 0..64 {
        words.push("a")?;
    }
    assert!(rt; is_boolean_of(rt.alloc(), &words, 64));
    words.push("a")?;
    assert!(rt; is_refused(rt.alloc(), &words, Refusal::TooManyFiles));
    Ok(())
}
