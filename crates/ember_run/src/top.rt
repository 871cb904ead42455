// The top call. `run` and `run_one` make the *executor*: the closure that runs the boxes of a query
// (query.rt of ember_query). A command that runs boxes gets it and doesn't know who runs them.
ghost use Rattle.std.specs.Prelude.{◌≡◌, ◌≤◌, ◌⊎◌, Some, IfOk, IfErr, map, string_bytes};
ghost use Rattle.ember_query.specs.Queries.{IsAnswer, IsExecutor, IsExecutorOfAny, IsQuery};
ghost use Rattle.ember_words.specs.Within.{IsWithinLimits};
ghost use Rattle.ember_io.specs.Calls.{TakesAll, TakesSome, shelf_seen, sink_seen};
ghost use Rattle.ember_run.specs.Serves.{IsReplyTo, ReadsCanonical, Serves, ServesWords};
ghost use Rattle.ember_verdict.specs.NoReplies.{IsNoReplyTo};

use crate::bool_command::{bool_output, demo_output};
use crate::pairs::pairs_output;
use crate::reply::Reply;
use crate::voxels::voxels_output;
use ember_io::{Shelf, Sink, write_all};
use ember_model::OutOfMemory;
use ember_query::{Answer, Query, answer_alone, answer_by_workers};
use ember_verdict::{
    Status, at_output, faces_output, say_out_of_memory, say_status, say_words_refused, slice_output,
};
use ember_words::{Command, WordsFault, read_words};
use std::alloc::Global;
use std::sync::Wait;
use std::thread::Threads;
use steal_pool::Gate;

// The reply to the command, or the status that says why there is none.
fn reply_to<S: Shelf, C: Fn(&Query) -> Result<Answer, OutOfMemory>>(
    alloc: Global,
    command: &Command,
    shelf: &mut S,
    executor: &C,
) -> Result<Reply, Status>
    requires command { IsWithinLimits command.now }
    requires executor { IsExecutor C.pre C.post executor.now }
    ensures contents { S.contents shelf.new ≡ S.contents shelf.old }
    ensures later { S.faults shelf.old ≤ S.faults shelf.new }
    ensures reply { IfOk result (IsReplyTo command.now (S.contents shelf.old)) }
    ensures no_reply { IfErr result (IsNoReplyTo command.now (shelf_seen S.Shelf shelf)) }
{
    match command {
        Command::Faces { places, file } => {
            let text = faces_output(alloc, *places as u8, file, shelf)?;
            Ok(Reply::of(alloc, text))
        }
        Command::At {
            point,
            expr,
            places,
            files,
        } => {
            let text = at_output(alloc, point, expr, *places as u8, files, shelf)?;
            Ok(Reply::of(alloc, text))
        }
        Command::Voxels {
            expr,
            size,
            places,
            files,
            ..
        } => {
            let (size, places) = (*size as u8, *places as u8);
            let text = voxels_output(alloc, expr, size, places, files, shelf, executor)?;
            Ok(Reply::of(alloc, text))
        }
        Command::Pairs { places, files, .. } => {
            let text = pairs_output(alloc, *places as u8, files, shelf, executor)?;
            Ok(Reply::of(alloc, text))
        }
        Command::Slice { at, file } => {
            let text = slice_output(alloc, *at, file, shelf)?;
            Ok(Reply::of(alloc, text))
        }
        Command::Demo { boxes, .. } => {
            let text = demo_output(alloc, *boxes, executor)?;
            Ok(Reply::of(alloc, text))
        }
        Command::Boole {
            expr,
            places,
            report,
            files,
            ..
        } => bool_output(alloc, expr, *places as u8, *report, files, shelf, executor),
    }
}

// Writes the output to `out`, and flushes it.
fn write_output<O: Sink>(out: &mut O, text: &[u8]) -> Status
    ensures out_later { O.faults out.old ≤ O.faults out.new }
    ensures done { result ≡ Status.Done → TakesAll (sink_seen O.Sink out) text.now }
    ensures write_fault { result ≡ Status.WriteFault → TakesSome (sink_seen O.Sink out) text.now }
    ensures either { (result ≡ Status.Done) ⊎ (result ≡ Status.WriteFault) }
{
    match write_all(out, text) {
        Ok(()) => Status::Done,
        Err(_) => Status::WriteFault,
    }
}

// Does what the command asks for, and writes the report or the status's line to err.
fn serve<S: Shelf, O: Sink, E: Sink, C: Fn(&Query) -> Result<Answer, OutOfMemory>>(
    alloc: Global,
    command: &Command,
    shelf: &mut S,
    out: &mut O,
    err: &mut E,
    executor: &C,
) -> Status
    requires command { IsWithinLimits command.now }
    requires executor { IsExecutor C.pre C.post executor.now }
    ensures { Serves (Some command.now)
        (shelf_seen S.Shelf shelf) (sink_seen O.Sink out) (sink_seen E.Sink err) result }
{
    match reply_to(alloc, command, shelf, executor) {
        Ok(reply) => {
            let status = write_output(out, &reply.text);
            say_status(err, command, &status, &reply.report);
            status
        }
        Err(status) => {
            say_status(err, command, &status, &[]);
            status
        }
    }
}

// The number of workers that the command asks for; 1 for a command that has no such option.
fn workers_of(command: &Command) -> u32
    requires { IsWithinLimits command.now }
    ensures { (1 ≤ result) × (result ≤ 64) }
{
    match command {
        Command::Boole { workers, .. }
        | Command::Demo { workers, .. }
        | Command::Voxels { workers, .. }
        | Command::Pairs { workers, .. } => *workers,
        Command::Faces { .. } | Command::At { .. } | Command::Slice { .. } => 1,
    }
}

// Does what the words ask for, by an executor with the workers that they ask for, and writes the
// report or the status's line to err.
//
// The closure here fixes the number of workers. It passes on what `executor` requires and ensures:
// in `C.post` the first argument is the closure itself, so it is `executor.entry.now`; then come
// the number of workers and the reference `&Query`, which is `query.entry`.
fn run_with<S: Shelf, O: Sink, E: Sink, C: Fn(u32, &Query) -> Result<Answer, OutOfMemory>>(
    alloc: Global,
    words: &[String],
    shelf: &mut S,
    out: &mut O,
    err: &mut E,
    executor: &C,
) -> Status
    requires { IsExecutorOfAny C.pre C.post executor.now }
    ensures serves { ServesWords words.now
        (shelf_seen S.Shelf shelf) (sink_seen O.Sink out) (sink_seen E.Sink err) result }
    ensures canonical { ReadsCanonical (map string_bytes words.now) }
{
    match read_words(alloc, words) {
        Ok(command) => {
            let workers = workers_of(&command);
            serve(
                alloc,
                &command,
                shelf,
                out,
                err,
                &|query: &Query| -> Result<Answer, OutOfMemory>
                    requires { C.pre executor.now workers query }
                    ensures { C.post executor.entry.now workers query.entry result }
                { executor(workers, query) },
            )
        }
        Err(WordsFault::Words) => {
            say_words_refused(err);
            Status::Words
        }
        Err(WordsFault::OutOfMemory) => {
            say_out_of_memory(err);
            Status::OutOfMemory
        }
    }
}

/// Does what the words ask for, with one worker whatever they say: writes the output to `out`, and
/// the report or the status's line to `err`. It waits for nobody, and accepts all words that `run`
/// accepts. Of the crates that aren't tests only ember_call calls this.
pub fn run_one<S: Shelf, O: Sink, E: Sink, G: Gate>(
    alloc: Global,
    words: &[String],
    shelf: &mut S,
    out: &mut O,
    err: &mut E,
    gate: &G,
) -> Status
    ensures serves { ServesWords words.now
        (shelf_seen S.Shelf shelf) (sink_seen O.Sink out) (sink_seen E.Sink err) result }
    ensures canonical { ReadsCanonical (map string_bytes words.now) }
{
    run_with(
        alloc,
        words,
        shelf,
        out,
        err,
        &|_workers: u32, query: &Query| -> Result<Answer, OutOfMemory>
            requires { IsQuery query.now }
            ensures { IfOk result (IsAnswer query.entry.now) }
        { answer_alone(alloc, gate, query) },
    )
}

/// Does what the words ask for, with as many workers as they say: writes the output to `out`, and
/// the report or the status's line to `err`. What is written doesn't depend on the number of
/// workers. With one worker, the calling thread does everything. `gate` is called before each box;
/// the program's does nothing.
pub fn run<R: Threads + Wait + Sync, S: Shelf, O: Sink, E: Sink, G: Gate + Sync>(
    rt: &R,
    alloc: Global,
    words: &[String],
    shelf: &mut S,
    out: &mut O,
    err: &mut E,
    gate: &G,
) -> Status
    ensures serves { ServesWords words.now
        (shelf_seen S.Shelf shelf) (sink_seen O.Sink out) (sink_seen E.Sink err) result }
    ensures canonical { ReadsCanonical (map string_bytes words.now) }
{
    run_with(
        alloc,
        words,
        shelf,
        out,
        err,
        &|workers: u32, query: &Query| -> Result<Answer, OutOfMemory>
            requires workers { (1 ≤ workers) × (workers ≤ 64) }
            requires query { IsQuery query.now }
            ensures { IfOk result (IsAnswer query.entry.now) }
        { answer_by_workers(rt, alloc, workers, gate, query) },
    )
}
