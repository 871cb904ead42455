//! The program `ember`: it hands `run` the words of the command line, the file system and the
//! standard streams, and ends with the status that comes back.
#![tactic(auto)]

use ember_io::{FileShelf, StdSink};
use ember_run::run;
use std::process::ExitCode;
use std::{env, io};
use steal_pool::OpenGate;

// The exit status if a word of the command line isn't text. All others are those of
// `Status::number` in ember_verdict.
const WORDS_ARE_NO_TEXT: u8 = 13;

// The exit status of `Status::OutOfMemory`, for the time before `run`.
const NO_MEMORY: u8 = 12;

// The stack in bytes that any command may need in this thread, with some to spare: the deepest
// expression takes about 150 kB. (docs/DECISIONS.md, "The stack", has the other threads.)
const STACK: usize = 192 * 1024;

// Touches the whole stack before any file is read. If the stack had to grow later and memory were
// short, the system would kill the program. It always returns `true`. `place` and the result only
// keep the optimizer from removing the array.
#[inline(never)]
fn claim_stack(place: usize) -> bool {
    let room = [0u8; STACK];
    room[place % STACK] == 0
}

// The toolchain passes `main` the runtime `rt`: the memory, threads, files and streams of the
// system. Its type needs no import.
fn main(rt: HostRuntime) -> ExitCode {
    let words = match env::args(&rt) {
        Ok(words) => words,
        Err(fault) if matches!(fault.kind(), io::ErrorKind::OutOfMemory) => {
            return ExitCode::from(NO_MEMORY);
        }
        Err(_) => return ExitCode::from(WORDS_ARE_NO_TEXT),
    };
    let Ok(words) = words.skip(1).collect::<Vec<String>>(rt.alloc()) else {
        return ExitCode::from(NO_MEMORY);
    };
    if !claim_stack(words.len()) {
        return ExitCode::from(NO_MEMORY);
    }
    let mut shelf = FileShelf::new(&rt);
    // Standard output, and below it standard error. The toolchain gives them by different calls.
    let mut out = StdSink::new(io::writer(&rt));
    let mut err = StdSink::new(rt.stderr());
    let status = run(
        &rt,
        rt.alloc(),
        &words,
        &mut shelf,
        &mut out,
        &mut err,
        &OpenGate,
    );
    ExitCode::from(status.number())
}
