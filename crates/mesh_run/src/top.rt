// The top call. `run_mesh` and `run_mesh_one` make the *executors*: the closure that runs the boxes of
// a query (query.rt of ember_query), and the one that answers for lines and planes (query.rt of
// mesh_triangles).
ghost use Rattle.std.specs.Prelude.{◌≡◌, ◌≤◌, false, None, IfOk, map, string_bytes};
ghost use Rattle.ember_query.specs.Queries.{IsAnswer, IsExecutorOfAny, IsQuery};
ghost use Rattle.mesh_triangles.specs.PlaneQueries.{IsPlaneAnswer, IsPlaneExecutorOfAny, IsPlaneQuery};
ghost use Rattle.ember_io.specs.Calls.{sink_seen};
ghost use Rattle.mesh_run.specs.Calls.{IsSaid, devices};
ghost use Rattle.mesh_run.specs.Memory.{hides_memory};
ghost use Rattle.mesh_run.specs.Serves.{IsWordsOutcome, ServesWords};

use crate::exports::serve_export;
use crate::infos::serve_infos;
use crate::snaps::serve_snap;
use crate::solid::serve_solid;
use crate::views::serve_view;
use crate::writing::{say, say_out_of_memory, write_bytes};
use ember_io::{Shelf, Sink};
use ember_model::OutOfMemory;
use ember_query::{Answer, Query, answer_alone, answer_by_workers};
use mesh_outside::{Stage, Stages, Target};
use mesh_refusal::{Status, words_said};
use mesh_report::{USAGE, VERSION};
use mesh_triangles::{
    PlaneAnswer, PlaneQuery, TrianglesFault, answer_planes_alone, answer_planes_by_workers,
};
use mesh_words::{Command, Refusal, WordsFault, read_words, words_ask_json};
use std::alloc::Global;
use std::sync::Wait;
use std::thread::Threads;
use steal_pool::Gate;

// Writes what is said of refused words to err.
fn refuse_words<E: Sink>(
    alloc: Global,
    json: bool,
    words: &[String],
    why: Refusal,
    err: &mut E,
) -> Status
    ensures outcome { IsSaid (sink_seen E.Sink err)
        (IsWordsOutcome json (map string_bytes words.now) why result) }
    ensures memory { hides_memory result ≡ false }
{
    match words_said(alloc, json, words, why) {
        Ok(text) => {
            say(err, &text);
            Status::Words(why)
        }
        Err(_) => {
            say_out_of_memory(json, err);
            Status::OutOfMemory
        }
    }
}

// Does what the words ask for, by an executor with the workers that they ask for.
//
// The closures here fix the number of workers. In their clauses, `x.entry` is `x` as the closure was
// given it, and `.now` is what a reference points to.
fn run_by<
    S: Shelf,
    T: Target,
    O: Sink,
    E: Sink,
    P: Stages,
    C: Fn(u32, &Query) -> Result<Answer, OutOfMemory>,
    D: Fn(u32, &PlaneQuery) -> Result<PlaneAnswer, TrianglesFault>,
>(
    alloc: Global,
    words: &[String],
    shelf: &mut S,
    target: &mut T,
    out: &mut O,
    err: &mut E,
    stages: &P,
    executor: &C,
    plane_executor: &D,
) -> Status
    requires begun { T.begun target.old ≡ None }
    requires executor { IsExecutorOfAny C.pre C.post executor.now }
    requires plane_executor { IsPlaneExecutorOfAny D.pre D.post plane_executor.now }
    ensures { ServesWords words.now (devices S.Shelf T.Target O.Sink E.Sink shelf target out err) result }
{
    let json = words_ask_json(words);
    match read_words(alloc, words) {
        Ok(Command::Boole(request)) => {
            let workers = request.workers;
            serve_solid(
                alloc,
                json,
                &request,
                shelf,
                target,
                out,
                err,
                stages,
                &|query: &Query| -> Result<Answer, OutOfMemory>
                    requires { C.pre executor.now workers query }
                    ensures { C.post executor.entry.now workers query.entry result }
                { executor(workers, query) },
                &|query: &PlaneQuery| -> Result<PlaneAnswer, TrianglesFault>
                    requires { D.pre plane_executor.now workers query }
                    ensures { D.post plane_executor.entry.now workers query.entry result }
                { plane_executor(workers, query) },
            )
        }
        Ok(Command::Snap(request)) => serve_snap(alloc, json, &request, shelf, target, err, stages),
        Ok(Command::Export(request)) => serve_export(
            alloc, json, &request, shelf, target, out, err,
        ),
        Ok(Command::Info(names)) => serve_infos(alloc, json, &names, shelf, out, err),
        Ok(Command::View(request)) => serve_view(alloc, json, &request, shelf, target, err),
        Ok(Command::Help) => write_bytes(json, out, err, USAGE.as_bytes()),
        Ok(Command::Version) => write_bytes(json, out, err, VERSION.as_bytes()),
        Err(WordsFault::Refused(why)) => refuse_words(alloc, json, words, why, err),
        Err(WordsFault::OutOfMemory) => {
            say_out_of_memory(json, err);
            Status::OutOfMemory
        }
    }
}

/// Does what the words ask for, with one worker whatever they say. It waits for nobody, and accepts
/// all words that `run_mesh` accepts. The C library, which starts no threads, calls this.
pub fn run_mesh_one<S: Shelf, T: Target, O: Sink, E: Sink, G: Gate + Stages>(
    alloc: Global,
    words: &[String],
    shelf: &mut S,
    target: &mut T,
    out: &mut O,
    err: &mut E,
    gate: &G,
) -> Status
    requires { T.begun target.old ≡ None }
    ensures { ServesWords words.now (devices S.Shelf T.Target O.Sink E.Sink shelf target out err) result }
{
    run_by(
        alloc,
        words,
        shelf,
        target,
        out,
        err,
        gate,
        &|_workers: u32, query: &Query| -> Result<Answer, OutOfMemory>
            requires { IsQuery query.now }
            ensures { IfOk result (IsAnswer query.entry.now) }
        {
            let answer = answer_alone(alloc, gate, query);
            gate.begin(Stage::Triangles);
            answer
        },
        &move |_workers: u32, query: &PlaneQuery| -> Result<PlaneAnswer, TrianglesFault>
            requires { IsPlaneQuery query.now }
            ensures { IfOk result (IsPlaneAnswer query.entry.now) }
        {
            gate.begin(Stage::Triangles);
            answer_planes_alone(alloc, query)
        },
    )
}

/// Does what the words ask for, with as many workers as they say. The files that they name are read
/// from the shelf, and those of the result are written to the target, each whole or not at all.
/// With `-o -` the mesh goes to `out`, behind all files. `help` and the version go to `out`, too;
/// the report, or what is said of the status, goes to `err`: as lines, or as one object of JSON if one
/// of the words is `--json`. The solid doesn't depend on the number of
/// workers. With one worker, the calling thread does everything. The gate is told of the boxes and
/// of the other stages.
pub fn run_mesh<
    R: Threads + Wait + Sync,
    S: Shelf,
    T: Target,
    O: Sink,
    E: Sink,
    G: Gate + Stages + Sync,
>(
    rt: &R,
    alloc: Global,
    words: &[String],
    shelf: &mut S,
    target: &mut T,
    out: &mut O,
    err: &mut E,
    gate: &G,
) -> Status
    requires { T.begun target.old ≡ None }
    ensures { ServesWords words.now (devices S.Shelf T.Target O.Sink E.Sink shelf target out err) result }
{
    run_by(
        alloc,
        words,
        shelf,
        target,
        out,
        err,
        gate,
        &|workers: u32, query: &Query| -> Result<Answer, OutOfMemory>
            requires workers { (1 ≤ workers) × (workers ≤ 64) }
            requires query { IsQuery query.now }
            ensures { IfOk result (IsAnswer query.entry.now) }
        {
            let answer = answer_by_workers(rt, alloc, workers, gate, query);
            gate.begin(Stage::Triangles);
            answer
        },
        &|workers: u32, query: &PlaneQuery| -> Result<PlaneAnswer, TrianglesFault>
            requires workers { (1 ≤ workers) × (workers ≤ 64) }
            requires query { IsPlaneQuery query.now }
            ensures { IfOk result (IsPlaneAnswer query.entry.now) }
        {
            gate.begin(Stage::Triangles);
            answer_planes_by_workers(rt, alloc, workers, query)
        },
    )
}
