//! The program `ember-mesh`: it hands `run_mesh` the words of the command line, the file system and the
//! shapes that the words say, the standard streams and a line of progress, and ends with the status that
//! comes back.
#![tactic(auto)]

mod input;

use ember_io::StdSink;
use input::InputShelf;
use mesh_outside::{FileTarget, ProgressGate};
use mesh_run::run_mesh;
use mesh_shapes::ShapeShelf;
use std::io::{Input, IsTerminal};
use std::process::ExitCode;
use std::{env, io};

// The exit status if a word of the command line isn't text. All others are those of
// `Status::number` in mesh_refusal.
const WORDS_ARE_NO_TEXT: u8 = 13;

// The exit status of `Status::OutOfMemory`, for the time before `run_mesh`.
const NO_MEMORY: u8 = 12;

// The stack in bytes that any command may need, with some to spare: the deepest expression takes
// about 150 kB.
const STACK: usize = 192 * 1024;

// Touches the whole stack before any file is read. If the stack had to grow later and memory were
// short, the system would kill the program. It always returns `true`. `place` and the result only
// keep the optimizer from removing the array.
#[inline(never)]
fn claim_stack(place: usize) -> bool {
    let room = [0u8; STACK];
    room[place % STACK] == 0
}

// Whether the words ask for silence, or for JSON, beside which no progress is shown. (A value that is
// spelled so asks for it too: then no progress is shown, which nobody is promised.)
fn are_quiet(words: &[String]) -> bool {
    words.iter().any(|word| word.as_str() == "--quiet" || word.as_str() == "--json")
}

// The toolchain passes `main` the runtime `rt`: the memory, threads, files and streams of the
// system. Its type needs no import.
fn main(rt: HostRuntime) -> ExitCode {
    let words = match env::args(&rt) {
        Ok(words) => words,
        Err(fault) if matches!(fault.kind(), io::ErrorKind::OutOfMemory) => {
            return ExitCode::from(NO_MEMORY);
        }
        Err(_) => return ExitCode::from(WORDS_ARE_NO_TEXT),
    };
    let Ok(words) = words.skip(1).collect::<Vec<String>>(rt.alloc()) else {
        return ExitCode::from(NO_MEMORY);
    };
    if !claim_stack(words.len()) {
        return ExitCode::from(NO_MEMORY);
    }
    let is_shown = rt.stderr().is_terminal() && !are_quiet(&words);
    let gate = ProgressGate::new(&rt, is_shown);
    let input = InputShelf::new(&rt, rt.reader());
    let Ok(mut shelf) = ShapeShelf::over(rt.alloc(), &words, input) else {
        return ExitCode::from(NO_MEMORY);
    };
    let mut target = FileTarget::new(&rt, rt.alloc());
    // Standard output.
    let mut out = StdSink::new(io::writer(&rt));
    let mut err = StdSink::new(rt.stderr());
    let status = run_mesh(
        &rt,
        rt.alloc(),
        &words,
        &mut shelf,
        &mut target,
        &mut out,
        &mut err,
        &gate,
    );
    gate.clear();
    ExitCode::from(status.number())
}
