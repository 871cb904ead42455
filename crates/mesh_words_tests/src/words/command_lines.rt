// Words of the second program's command line, and the commands that they give.
use ember_words::Text;
use mesh_words::{Command, Destination, OutputFormat, Setting, WantedStep, WordsFault, read_words};
use std::alloc::Global;

/// The words as strings.
pub fn strings(alloc: Global, words: &[&str]) -> Result<Vec<String>, WordsFault> {
    let mut strings = Vec::new(alloc);
    for word in words {
        strings.push(String::from_str(alloc, word)?)?;
    }
    Ok(strings)
}

/// What the words are read as.
pub fn read(alloc: Global, words: &[&str]) -> Result<Command, WordsFault> {
    let strings = strings(alloc, words)?;
    read_words(alloc, &strings)
}

fn has_so_many_files(command: &Command, files: usize) -> bool {
    matches!(command, Command::Boole(request) if request.files.items().len() == files)
}

/// The words give a Boolean of this many files.
pub fn is_boolean_of(alloc: Global, words: &[&str], files: usize) -> bool {
    match read(alloc, words) {
        Ok(command) => has_so_many_files(&command, files),
        Err(_) => false,
    }
}

// A command is looked at by reference, since parts that are taken out of it cost seconds of proof.

// The step as an option spells it.
fn step_in(step: &WantedStep) -> &str {
    match step {
        WantedStep::Nice => "nice",
        WantedStep::Finest => "finest",
        WantedStep::Decimal(text) => text.as_str(),
    }
}

// A name that may be missing.
fn name_in(name: &Option<Text>) -> Option<&str> {
    match name {
        Some(text) => Some(text.as_str()),
        None => None,
    }
}

// The output as an option names it.
fn output_in(output: &Destination) -> Option<&str> {
    match output {
        Destination::File(name) => Some(name.as_str()),
        Destination::StandardOutput => Some("-"),
    }
}

// The text that the command has of a setting, if it has one.
fn text_of(command: &Command, setting: Setting) -> Option<&str> {
    match (command, setting) {
        (Command::Boole(request), Setting::Expression) => Some(request.expression.as_str()),
        (Command::Boole(request), Setting::Output) => output_in(&request.output),
        (Command::Boole(request), Setting::Step) => Some(step_in(&request.step)),
        (Command::Boole(request), Setting::Page) => name_in(&request.view),
        (Command::Boole(request), Setting::Keep) => name_in(&request.keep),
        (Command::Snap(request), Setting::Folder) => Some(request.folder.as_str()),
        (Command::Snap(request), Setting::Step) => Some(step_in(&request.step)),
        (Command::Export(request), Setting::Output) => output_in(&request.output),
        (Command::Export(request), Setting::Scene) => name_in(&request.scene),
        (Command::Export(request), Setting::Page) => name_in(&request.view),
        (Command::View(request), Setting::Output) => Some(request.output.as_str()),
        _ => None,
    }
}

// Its format, number of workers and digits, and whether it is quiet. What it lacks is none, 0 or false.
type Settings = (Option<OutputFormat>, u32, Option<u32>, bool);

fn settings_of(command: &Command) -> Settings {
    match command {
        Command::Boole(it) => (Some(it.format), it.workers, it.digits, it.quiet),
        Command::Snap(it) => (None, 0, None, it.quiet),
        Command::Export(it) => (Some(it.format), 0, it.digits, it.quiet),
        _ => (None, 0, None, false),
    }
}

fn are(texts: &[Text], names: &[&str]) -> bool {
    if texts.len() != names.len() {
        return false;
    }
    for i in 0..names.len() {
        if texts[i].as_str() != names[i] {
            return false;
        }
    }
    true
}

// Its files, or its document, have these names.
fn has_files(command: &Command, names: &[&str]) -> bool {
    match command {
        Command::Boole(it) => are(it.files.items(), names),
        Command::Snap(it) => are(it.files.items(), names),
        Command::Info(files) => are(files.items(), names),
        Command::View(it) => are(it.files.items(), names),
        Command::Export(it) => names == [it.document.as_str()].as_slice(),
        Command::Help | Command::Version => names.is_empty(),
    }
}

// Its settings have these texts.
fn has_texts(command: &Command, texts: &[(Setting, Option<&str>)]) -> bool {
    for (setting, text) in texts {
        if text_of(command, *setting) != *text {
            return false;
        }
    }
    true
}

// The words give a command with these settings, texts and files.
fn is_command(
    alloc: Global,
    words: &[&str],
    settings: Settings,
    texts: &[(Setting, Option<&str>)],
    files: &[&str],
) -> bool {
    match read(alloc, words) {
        Ok(command) => {
            settings_of(&command) == settings
                && has_texts(&command, texts)
                && has_files(&command, files)
        }
        Err(_) => false,
    }
}

#[test]
fn a_union_of_defaults(rt: HostRuntime) {
    let words = ["union", "-o", "u.STL", "a.stl", "b.obj", "a.stl"];
    let texts = [
        (Setting::Expression, Some("m1|m2|m3")),
        (Setting::Output, Some("u.STL")),
        (Setting::Step, Some("nice")),
        (Setting::Page, None),
        (Setting::Keep, None),
    ];
    assert!(rt;
        is_command(
            rt.alloc(),
            &words,
            (Some(OutputFormat::Stl), 4, None, false),
            &texts,
            &["a.stl", "b.obj", "a.stl"],
        )
    );
}

#[test]
fn options_between_and_behind_files(rt: HostRuntime) {
    let words = [
        "bool",
        "a.off",
        "--expr",
        "-w1<0",
        "--step=0.02",
        "--workers",
        "64",
        "b.off",
        "--quiet",
        "--digits=17",
        "--step",
        "1e-3",
        "-o=d/x.y.oFf",
    ];
    let texts = [
        (Setting::Expression, Some("-w1<0")),
        (Setting::Output, Some("d/x.y.oFf")),
        (Setting::Step, Some("1e-3")),
    ];
    assert!(rt;
        is_command(
            rt.alloc(),
            &words,
            (Some(OutputFormat::Off), 64, Some(17), true),
            &texts,
            &["a.off", "b.off"],
        )
    );
}

// Command lines of a Boolean, with the page and the folder that each names.
static PAGES_AND_FOLDERS: [(&[&str], Option<&str>, Option<&str>); 4] = [
    (
        &["union", "-o", "x.stl", "a", "--view", "p.html"],
        Some("p.html"),
        None,
    ),
    (
        &[
            "bool",
            "--view=p.html",
            "-o=x.stl",
            "--expr=m1",
            "--keep",
            "d",
            "a",
        ],
        Some("p.html"),
        Some("d"),
    ),
    (
        &[
            "intersection",
            "--keep=a=b",
            "a",
            "-o=x.stl",
            "--view",
            "--keep.htm",
        ],
        Some("--keep.htm"),
        Some("a=b"),
    ),
    (
        &["difference", "a", "b", "--keep=", "-o", "x.glb"],
        None,
        Some(""),
    ),
];

// The words give a command with these texts.
fn gives_texts(alloc: Global, words: &[&str], texts: &[(Setting, Option<&str>)]) -> bool {
    match read(alloc, words) {
        Ok(command) => has_texts(&command, texts),
        Err(_) => false,
    }
}

#[test]
fn pages_and_folders_of_a_boolean(rt: HostRuntime) {
    for &(words, view, keep) in &PAGES_AND_FOLDERS {
        let texts = [(Setting::Page, view), (Setting::Keep, keep)];
        assert!(rt; gives_texts(rt.alloc(), words, &texts));
    }
}

static MESHES_FOR_THEIR_GRID: [(&[&str], bool, &str, &str, &[&str]); 3] = [
    (
        &["snap", "a.stl", "-d", "grid", "b.obj", "--quiet", "a.stl"],
        true,
        "grid",
        "nice",
        &["a.stl", "b.obj", "a.stl"],
    ),
    (
        &["snap", "--step=finest", "-d=", "a"],
        false,
        "",
        "finest",
        &["a"],
    ),
    (
        &["snap", "-d", "-o", "a", "--step", ".5"],
        false,
        "-o",
        ".5",
        &["a"],
    ),
];

#[test]
fn meshes_for_their_grid(rt: HostRuntime) {
    for &(words, quiet, folder, step, files) in &MESHES_FOR_THEIR_GRID {
        let texts = [(Setting::Folder, Some(folder)), (Setting::Step, Some(step))];
        assert!(rt; is_command(rt.alloc(), words, (None, 0, None, quiet), &texts, files,));
    }
}

#[test]
fn a_document_to_export(rt: HostRuntime) {
    let texts = [
        (Setting::Output, Some("x.obj")),
        (Setting::Scene, None),
        (Setting::Page, None),
    ];
    assert!(rt;
        is_command(
            rt.alloc(),
            &["export", "doc.txt", "-o", "x.obj"],
            (Some(OutputFormat::Obj), 0, None, false),
            &texts,
            &["doc.txt"],
        )
    );
    let words = [
        "export",
        "--scene",
        "d/scene.json",
        "--digits=0",
        "--quiet",
        "--view=p.html",
        "-o=x.ply",
        "doc",
    ];
    let texts = [
        (Setting::Output, Some("x.ply")),
        (Setting::Scene, Some("d/scene.json")),
        (Setting::Page, Some("p.html")),
    ];
    assert!(rt;
        is_command(
            rt.alloc(),
            &words,
            (Some(OutputFormat::Ply), 0, Some(0), true),
            &texts,
            &["doc"],
        )
    );
}

// The command has this expression and format.
fn has_expression_and_format(command: &Command, expression: &str, format: OutputFormat) -> bool {
    text_of(command, Setting::Expression) == Some(expression)
        && settings_of(command).0 == Some(format)
}

// The words give a Boolean of this expression and format.
fn gives(alloc: Global, words: &[&str], expression: &str, format: OutputFormat) -> bool {
    match read(alloc, words) {
        Ok(command) => has_expression_and_format(&command, expression, format),
        Err(_) => false,
    }
}

// The command of this name gives this expression of eleven files, and the first mesh of one.
fn has_expression(alloc: Global, name: &str, want: &str) -> bool {
    let eleven = [
        name, "-o", ".ply", "a", "b", "c", "d", "e", "f", "g", "h", "i", "j", "k",
    ];
    gives(alloc, &eleven, want, OutputFormat::Ply)
        && gives(alloc, &[name, "-o", "x.obj", "a"], "m1", OutputFormat::Obj)
        && gives(alloc, &[name, "-o", "x.Glb", "a"], "m1", OutputFormat::Glb)
}

static EXPRESSIONS_OF_OPERATORS: [(&str, &str); 3] = [
    ("union", "m1|m2|m3|m4|m5|m6|m7|m8|m9|m10|m11"),
    ("difference", "m1&!m2&!m3&!m4&!m5&!m6&!m7&!m8&!m9&!m10&!m11"),
    ("intersection", "m1&m2&m3&m4&m5&m6&m7&m8&m9&m10&m11"),
];

#[test]
fn expressions_of_operators(rt: HostRuntime) {
    for &(name, want) in &EXPRESSIONS_OF_OPERATORS {
        assert!(rt; has_expression(rt.alloc(), name, want));
    }
}

// Whether it is help, and whether it is the version.
fn is_help_or_version(command: &Command) -> (bool, bool) {
    match command {
        Command::Help => (true, false),
        Command::Version => (false, true),
        _ => (false, false),
    }
}

// Whether the words ask for help, and whether for the version.
fn asks_for(alloc: Global, words: &[&str]) -> (bool, bool) {
    match read(alloc, words) {
        Ok(command) => is_help_or_version(&command),
        Err(_) => (false, false),
    }
}

static WORDS_THAT_ASK_FOR_HELP_OR_THE_VERSION: [&[&str]; 9] = [
    &["help"],
    &["help", "union"],
    &["-h", "--x"],
    &["--help"],
    &["union", "a.stl", "--help"],
    &["info", "a.stl", "-h"],
    &["view", "--step=1", "--help"],
    &["snap", "--help"],
    &["export", "-h", "a", "b"],
];

#[test]
fn words_that_ask_for_help_or_the_version(rt: HostRuntime) {
    for &words in &WORDS_THAT_ASK_FOR_HELP_OR_THE_VERSION {
        assert!(rt; asks_for(rt.alloc(), words) == (true, false));
    }
    assert!(rt; asks_for(rt.alloc(), &["--version"]) == (false, true));
}

#[test]
fn info_and_views_of_files(rt: HostRuntime) {
    let none = (None, 0, None, false);
    let words = ["info", "a.stl", "b=1.obj"];
    let texts = [(Setting::Output, None)];
    assert!(rt; is_command(rt.alloc(), &words, none, &texts, &["a.stl", "b=1.obj"]));
    let words = ["view", "a.stl", "--quiet", "-o=PAGE.HTML", "b.obj", "a.stl"];
    let texts = [(Setting::Output, Some("PAGE.HTML"))];
    assert!(rt;
        is_command(
            rt.alloc(),
            &words,
            none,
            &texts,
            &["a.stl", "b.obj", "a.stl"],
        )
    );
}
