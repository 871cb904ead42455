// What C gets of an outcome.
ghost use Rattle.std.specs.Prelude.{◌⊎◌};
ghost use Rattle.ember_c.specs.Answers.{HasNothing, IsAnswerOf};

use crate::blocks::{Block, NamedBlock, block_of, blocks_of, no_block};
use ember_call::Outcome;
use std::alloc::Global;
use std::ptr::null_mut;

/// The struct `ember_answer` of the header.
#[repr(C)]
#[derive(Drop)]
pub struct Answer {
    pub status: u32,
    pub file: u32,
    pub place: u64,
    pub out: Block,
    pub err: Block,
    pub files: *mut NamedBlock,
    pub file_count: usize,
}

/// The status of an answer for which there is no memory.
const NO_MEMORY: u32 = 12;

// The answer without any block, for want of memory.
fn no_memory() -> Answer
    ensures { HasNothing 12 result }
{
    Answer {
        status: NO_MEMORY,
        file: 0,
        place: 0,
        out: no_block(),
        err: no_block(),
        files: null_mut(),
        file_count: 0,
    }
}

/// The answer with the bytes of an outcome, or the one that says that there is no memory for it. All
/// memory is asked for before the first block becomes the caller's.
pub fn answer_of(alloc: Global, outcome: Outcome) -> Answer
    ensures { IsAnswerOf outcome result ⊎ HasNothing 12 result }
{
    let Outcome {
        status,
        file,
        place,
        out,
        err,
        files,
    } = outcome;
    let Ok(mut blocks) = blocks_of(alloc, files) else {
        return no_memory();
    };
    let file_count = blocks.len();
    let files = if file_count == 0 {
        null_mut()
    } else {
        let first = blocks.as_mut_ptr();
        let _ = blocks.leak();
        first
    };
    Answer {
        status,
        file,
        place,
        out: block_of(out),
        err: block_of(err),
        files,
        file_count,
    }
}
