// The program `ember` as a function.
ghost use Rattle.std.specs.Prelude.{◌≡◌, ◌≢◌, [], false, All, IsSome, map, string_bytes};
ghost use Rattle.ember_io.specs.Files.{first_of};
ghost use Rattle.ember_verdict.specs.Statuses.{IsText};
ghost use Rattle.ember_verdict.specs.Verdict.{names_of, told_verdict};
ghost use Rattle.ember_words.specs.WordsCommand.{command_of};
ghost use Rattle.ember_call.specs.Calls.{IsOutcome, IsOutcomeWith, file_of, line_of_fault, place_of};
ghost use Rattle.ember_call.specs.Lent.{contents_of, named_bytes, word_bytes};

use crate::growing_sink::GrowingSink;
use crate::lent::{Lent, LentFile};
use crate::lent_shelf::LentShelf;
use crate::outcome::{NO_MEMORY, NO_TEXT, Outcome, nothing_said};
use crate::texts::{NoTexts, texts_of};
use ember_obj::ObjFault;
use ember_run::{FaceFault, LimitKind, Status, run_one};
use std::alloc::Global;
use steal_pool::OpenGate;

// The number of the file at fault, from 1, or 0.
fn file_of(status: &Status) -> u32
    ensures { result ≡ file_of status.now }
{
    match status {
        Status::ReadFault(i)
        | Status::ObjRefused(i, _)
        | Status::MeshRefused(i, _)
        | Status::Limit(LimitKind::Bytes(i), _) => *i,
        Status::FaceRefused(_) => 1,
        _ => 0,
    }
}

// The line of a fault in an OBJ file, or 0.
fn line_of(fault: &ObjFault) -> u32
    ensures { result ≡ line_of_fault fault.now }
{
    match fault {
        ObjFault::Word(line)
        | ObjFault::Coordinate(line, _)
        | ObjFault::Index(line)
        | ObjFault::FewCorners(line)
        | ObjFault::LongLine(line)
        | ObjFault::TooMany(line) => *line,
        ObjFault::OutOfMemory => 0,
    }
}

// The line or the face of the fault, or 0.
fn place_of(status: &Status) -> u32
    ensures { result ≡ place_of status.now }
{
    match status {
        Status::ObjRefused(_, fault) => line_of(fault),
        Status::FaceRefused(FaceFault::Endless(face)) => *face,
        _ => 0,
    }
}

// Whether there was no memory for some of the bytes of a stream.
fn lack_memory(out: &GrowingSink, err: &GrowingSink) -> bool
    ensures { result ≡ false → (out.now.faults ≡ 0) × (err.now.faults ≡ 0) }
{
    out.lacks_memory() || err.lacks_memory()
}

// The outcome with this status and with what went to the streams.
fn outcome_with(alloc: Global, status: &Status, out: GrowingSink, err: GrowingSink) -> Outcome
    ensures outcome { IsOutcomeWith status.now out err result }
    ensures files { result.files.items ≡ [] }
{
    let is_short = lack_memory(&out, &err);
    if is_short {
        return nothing_said(alloc, NO_MEMORY);
    }
    Outcome {
        status: status.number() as u32,
        file: file_of(status),
        place: place_of(status) as u64,
        out: out.into_bytes(),
        err: err.into_bytes(),
        files: Vec::new(alloc),
    }
}

// The outcome of these words.
fn outcome_of(alloc: Global, words: &[String], files: &[LentFile]) -> Outcome
    ensures outcome { IsOutcome (map string_bytes words.now) (named_bytes files.now) result }
    ensures files { result.files.items ≡ [] }
{
    let mut shelf = LentShelf::new(files);
    let mut out = GrowingSink::new(alloc);
    let mut err = GrowingSink::new(alloc);
    let status = run_one(alloc, words, &mut shelf, &mut out, &mut err, &OpenGate);
    outcome_with(alloc, &status, out, err)
}

/// Does what `ember WORDS..` does in a folder with exactly these files: of those with one name the
/// first counts. It uses one thread, whatever the words say.
///
/// With a status above 0 nothing is written to `out`. `err` has the line of the status, but if a word
/// isn't text (status 13), and maybe not for want of memory (12).
#[tactic(auto, using(crate::proofs::Ends::outcome_has_files, crate::proofs::Ends::outcome_has_text, crate::proofs::Ends::outcome_is_empty))]
pub fn command(alloc: Global, words: &[Lent], files: &[LentFile]) -> Outcome
    ensures outcome { IsOutcome (word_bytes words.now) (named_bytes files.now) result }

    // With status 0 all files that the words name are there, and `out` has what the words ask for.
    ensures there { result.status ≡ 0 → All (λ name. IsSome (first_of (named_bytes files.now) name))
        (names_of (command_of (word_bytes words.now))) }
    ensures output { result.status ≡ 0 →
        IsText (told_verdict (command_of (word_bytes words.now))
        (contents_of (named_bytes files.now))) result.out.items }

    ensures nothing { result.status ≢ 0 → result.out.items ≡ [] }
    ensures no_files { result.files.items ≡ [] }
{
    match texts_of(alloc, words) {
        Ok(texts) => outcome_of(alloc, &texts, files),
        Err(NoTexts::NotUtf8) => nothing_said(alloc, NO_TEXT),
        Err(NoTexts::OutOfMemory) => nothing_said(alloc, NO_MEMORY),
    }
}
