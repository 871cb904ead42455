// The text of pairs.
ghost use Rattle.std.specs.Prelude.{◌≡◌, ◌++◌, codes, decimal, IfOk, OnOk};
ghost use Rattle.ember_pairs.specs.Texts as texts;

use crate::pair::Pair;
use ember_model::OutOfMemory;
use itoa::Buffer;
use std::alloc::Global;

// Appends a word and a number.
fn put_number(word: &[u8], number: u64, out: &mut Vec<u8>) -> Result<(), OutOfMemory>
    ensures { OnOk result (out.new.items ≡ out.old.items ++ (word.now ++ decimal number)) }
{
    let mut buffer = Buffer::new();
    out.extend_from_slice(word)?;
    out.extend_from_slice(buffer.format(number).as_bytes())?;
    Ok(())
}

// Appends the line of a pair.
fn put_pair(pair: &Pair, out: &mut Vec<u8>) -> Result<(), OutOfMemory>
    ensures { OnOk result (out.new.items ≡ out.old.items ++ texts.pair_line pair.now) }
{
    put_number(b"p ", u64::from(pair.low), out)?;
    put_number(b" ", u64::from(pair.high), out)?;
    out.push(b'\n')?;
    Ok(())
}

/// The text of a list of pairs: a first line, a line for each pair in order, and a last line with
/// their number. The only error is out-of-memory.
pub fn pairs_text(alloc: Global, pairs: &[Pair]) -> Result<Vec<u8>, OutOfMemory>
    ensures { IfOk result (λ text. text.items ≡ texts.pairs_text pairs.now) }
{
    let mut text = Vec::from_slice(alloc, b"pairs\n")?;
    for p in pairs {
        put_pair(p, &mut text)?;
    }
    put_number(b"end ", pairs.len() as u64, &mut text)?;
    text.push(b'\n')?;
    Ok(text)
}
