// The line of a report.
ghost use Rattle.std.specs.Prelude.{◌≡◌, ◌++◌, codes, decimal, IfOk, OnOk};
ghost use Rattle.ember_report.specs.Reports.{report_line_of};

use crate::Report;
use ember_model::OutOfMemory;
use itoa::Buffer;
use std::alloc::Global;

// Appends a word and a number.
fn put_number(word: &[u8], number: u64, out: &mut Vec<u8>) -> Result<(), OutOfMemory>
    ensures { OnOk result (out.new.items ≡ out.old.items ++ (word.now ++ decimal number)) }
{
    let mut buffer = Buffer::new();
    out.extend_from_slice(word)?;
    out.extend_from_slice(buffer.format(number).as_bytes())
}

/// The line `boxes B leaves L skipped S faces F`, with its line feed. The only error is
/// out-of-memory.
pub fn report_line(alloc: Global, r: &Report) -> Result<Vec<u8>, OutOfMemory>
    ensures { IfOk result (λ line. line.items ≡ report_line_of r.now) }
{
    let mut line = Vec::new(alloc);
    put_number(b"boxes ", r.boxes, &mut line)?;
    put_number(b" leaves ", r.leaves, &mut line)?;
    put_number(b" skipped ", r.skipped, &mut line)?;
    put_number(b" faces ", r.faces, &mut line)?;
    line.push(b'\n')?;
    Ok(line)
}
