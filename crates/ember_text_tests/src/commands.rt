// Words of the command line, and the commands that they give.
use ember_words::{Command, Text, Texts, WordsFault, read_words};
use std::alloc::{AllocError, Global};

fn strings(alloc: Global, words: &[&str]) -> Result<Vec<String>, AllocError> {
    let mut strings = Vec::new(alloc);
    for word in words {
        strings.push(String::from_str(alloc, word)?)?;
    }
    Ok(strings)
}

fn read(alloc: Global, words: &[&str]) -> Result<Command, WordsFault> {
    let strings = strings(alloc, words)?;
    read_words(alloc, &strings)
}

// The words are refused.
fn are_refused(alloc: Global, words: &[&str]) -> bool {
    match read(alloc, words) {
        Ok(_command) => false,
        Err(fault) => fault == WordsFault::Words,
    }
}

// A command is looked at by reference, since parts that are taken out of it cost seconds of proof.

fn name_of(command: &Command) -> &'static str {
    match command {
        Command::Faces { .. } => "faces",
        Command::At { .. } => "at",
        Command::Boole { .. } => "bool",
        Command::Demo { .. } => "demo",
        Command::Voxels { .. } => "voxels",
        Command::Pairs { .. } => "pairs",
        Command::Slice { .. } => "slice",
    }
}

// Its numbers, in the order in which `Command` has them; a report is 1, and what it lacks is 0.
fn numbers_of(command: &Command) -> [i64; 5] {
    match command {
        Command::Faces { places, .. } => [i64::from(*places), 0, 0, 0, 0],
        Command::At { point, places, .. } => {
            [point.x, point.y, point.z, point.w, i64::from(*places)]
        }
        Command::Boole {
            workers,
            places,
            report,
            ..
        } => [
            i64::from(*workers),
            i64::from(*places),
            i64::from(*report),
            0,
            0,
        ],
        Command::Demo { boxes, workers } => [i64::from(*boxes), i64::from(*workers), 0, 0, 0],
        Command::Voxels {
            size,
            workers,
            places,
            ..
        } => [
            i64::from(*size),
            i64::from(*workers),
            i64::from(*places),
            0,
            0,
        ],
        Command::Pairs {
            workers,
            places,
            ..
        } => { [i64::from(*workers), i64::from(*places), 0, 0, 0] }
        Command::Slice { at, .. } => [i64::from(*at), 0, 0, 0, 0],
    }
}

// Its expression, if it has one.
fn expr_of(command: &Command) -> Option<&str> {
    match command {
        Command::At {
            expr: Some(expr),
            ..
        }
        | Command::Boole { expr, .. }
        | Command::Voxels { expr, .. } => Some(expr.as_str()),
        _ => None,
    }
}

fn are(texts: &[Text], names: &[&str]) -> bool {
    if texts.len() != names.len() {
        return false;
    }
    for i in 0..names.len() {
        if texts[i].as_str() != names[i] {
            return false;
        }
    }
    true
}

// Its files have these names.
fn has_files(command: &Command, names: &[&str]) -> bool {
    match command {
        Command::Faces { file, .. } | Command::Slice { file, .. } => names
            == [file.as_str()].as_slice(),
        Command::At { files, .. }
        | Command::Boole { files, .. }
        | Command::Voxels { files, .. }
        | Command::Pairs { files, .. } => are(files.items(), names),
        Command::Demo { .. } => names.is_empty(),
    }
}

// Words, with the name, the numbers, the expression and the files of the command that they give.
type Row = (
    &'static [&'static str],
    &'static str,
    [i64; 5],
    Option<&'static str>,
    &'static [&'static str],
);

static COMMANDS: [Row; 7] = [
    (
        &["faces", "--places", "02", "a.obj"],
        "faces",
        [2, 0, 0, 0, 0],
        None,
        &["a.obj"],
    ),
    (
        &[
            "at",
            "--point=-10,-0,13,4",
            "--expr",
            "m1&!m2",
            "c.obj",
            "d.obj",
        ],
        "at",
        [-10, 0, 13, 4, 0],
        Some("m1&!m2"),
        &["c.obj", "d.obj"],
    ),
    (
        &[
            "bool",
            "--expr",
            "m1|m2",
            "--workers=7",
            "--report",
            "c.obj",
            "d.obj",
        ],
        "bool",
        [7, 0, 1, 0, 0],
        Some("m1|m2"),
        &["c.obj", "d.obj"],
    ),
    (
        &["demo", "--workers", "64", "20000"],
        "demo",
        [20000, 64, 0, 0, 0],
        None,
        &[],
    ),
    (
        &["voxels", "--expr", "m1", "--size", "11", "c.obj"],
        "voxels",
        [11, 1, 0, 0, 0],
        Some("m1"),
        &["c.obj"],
    ),
    (
        &["pairs", "--workers", "2", "c.obj", "d.obj"],
        "pairs",
        [2, 0, 0, 0, 0],
        None,
        &["c.obj", "d.obj"],
    ),
    (
        &["slice", "--at=-2048", "t1"],
        "slice",
        [-2048, 0, 0, 0, 0],
        None,
        &["t1"],
    ),
];

// The command has this name, these numbers, this expression and these files.
fn is_so(
    command: &Command,
    name: &str,
    numbers: [i64; 5],
    expr: Option<&str>,
    files: &[&str],
) -> bool {
    name_of(command) == name
        && numbers_of(command) == numbers
        && expr_of(command) == expr
        && has_files(command, files)
}

// The words give such a command.
fn give(
    alloc: Global,
    words: &[&str],
    name: &str,
    numbers: [i64; 5],
    expr: Option<&str>,
    files: &[&str],
) -> bool {
    match read(alloc, words) {
        Ok(command) => is_so(&command, name, numbers, expr, files),
        Err(_) => false,
    }
}

#[test]
fn words_give_commands(rt: HostRuntime) {
    for &(words, name, numbers, expr, files) in &COMMANDS {
        assert!(rt; give(rt.alloc(), words, name, numbers, expr, files));
    }
}

static OTHER_WORDS_ARE_REFUSED: [&[&str]; 24] = [
    &[],
    &["help"],
    &["pair", "pair", "a.obj"],
    &["--report", "faces", "-"],
    &["faces"],
    &["faces", ""],
    &["faces", "--help"],
    &["faces", "--workers=1", "a.obj"],
    &["faces", "--places", "4", "a.obj"],
    &["faces", "--places", "0000000001", "a.obj"],
    &["at", "--point=-1099511627776,2,3,16", "a.obj"],
    &["at", "--point=1,2,3,16", "a.obj", ""],
    &["at", "--point", "1,2,3", "a.obj"],
    &["at", "--point", "1,2,3,0", "a.obj"],
    &["at", "--point", "1,2,3,4,5", "a.obj"],
    &["bool", "--expr", "", "a.obj"],
    &["demo", "--workers=3", "-1"],
    &["demo"],
    &["slice", "--at=2048", "t1"],
    &["slice", "--at", "-1", "t1"],
    &["slice", "--at=", "t1"],
    &["voxels", "--expr", "m1", "--size", "3", "a.obj"],
    &["voxels", "--expr", "m1", "--size", "13", "a.obj"],
    &["voxels", "--expr", "m1", "a.obj"],
];

#[test]
fn other_words_are_refused(rt: HostRuntime) {
    for &words in &OTHER_WORDS_ARE_REFUSED {
        assert!(rt; are_refused(rt.alloc(), words));
    }
}
