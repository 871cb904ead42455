// The command `pairs`.
ghost use Rattle.std.specs.Prelude.{◌≡◌, ◌≤◌, length, IfOk, IfErr};
ghost use Rattle.ember_query.specs.Queries.{IsExecutor};
ghost use Rattle.ember_verdict.specs.PairLists.{IsPairsText};
ghost use Rattle.ember_io.specs.Calls.{shelf_seen};
ghost use Rattle.ember_verdict.specs.HeldTexts.{IsTextOver};
ghost use Rattle.ember_verdict.specs.NoReplies.{IsNoReply};
ghost use Rattle.ember_verdict.specs.Verdict.{pairs_verdict};

use ember_io::Shelf;
use ember_model::{OutOfMemory, Scene};
use ember_pairs::{gather, gathered_pairs_are_all, pairs_text};
use ember_query::{Answer, Query, query_pairs};
use ember_verdict::{Status, read_scene};
use ember_words::Texts;
use std::alloc::Global;

// The text of the scene's pairs.
fn text_of_pairs<C: Fn(&Query) -> Result<Answer, OutOfMemory>>(
    alloc: Global,
    scene: &Scene,
    executor: &C,
) -> Result<Vec<u8>, OutOfMemory>
    requires { IsExecutor C.pre C.post executor.now }
    ensures { IfOk result (λ text. IsPairsText scene.now.tris text.items) }
{
    let items = query_pairs(scene, executor)?;
    let pairs = gather(alloc, items)?;
    // A law, which does nothing: the gathered pairs are all pairs of the scene that meet.
    gathered_pairs_are_all(scene);
    pairs_text(alloc, pairs.items())
}

/// The output of `pairs`: the pairs of triangles that cross or overlap. `places` is at most 3, and
/// there are at most 64 files. The error is the status with which the call ends instead.
pub fn pairs_output<S: Shelf, C: Fn(&Query) -> Result<Answer, OutOfMemory>>(
    alloc: Global,
    places: u8,
    files: &Texts,
    shelf: &mut S,
    executor: &C,
) -> Result<Vec<u8>, Status>
    requires places { places ≤ 3 }
    requires few { length files.now ≤ 64 }
    requires executor { IsExecutor C.pre C.post executor.now }
    ensures contents { S.contents shelf.new ≡ S.contents shelf.old }
    ensures later { S.faults shelf.old ≤ S.faults shelf.new }
    ensures text { IfOk result (IsTextOver (pairs_verdict places) files.now (S.contents shelf.old)) }
    ensures no_reply { IfErr result (IsNoReply (pairs_verdict places) files.now (shelf_seen S.Shelf shelf)) }
{
    let scene = match read_scene(alloc, shelf, files.items(), places) {
        Ok(scene) => scene,
        Err(status) => return Err(status),
    };
    Ok(text_of_pairs(alloc, &scene, executor)?)
}
