// Bytes that are cut at a stop.
ghost use Rattle.std.specs.Prelude.{◌≡◌, ◌+◌, ◌==◌, length};
ghost use Rattle.ember_obj.specs.Scan.{before, onward};

use crate::scan::part::Part;

/// The bytes before the first `stop`, and from it on.
pub fn cut_before<'a>(part: Part<'a>, stop: u8) -> (Part<'a>, Part<'a>)
    ensures before { result.0.bytes.now ≡ before (λ b. b == stop) part.entry.bytes.now }
    ensures onward { result.1.bytes.now ≡ onward (λ b. b == stop) part.entry.bytes.now }
    ensures start { result.0.start ≡ part.entry.start }
    ensures next { result.1.start ≡ part.entry.start + length result.0.bytes.now }
    ensures length { length result.0.bytes.now + length result.1.bytes.now ≡ length part.entry.bytes.now }
{
    let mut end = 0;
    while end < part.bytes.len() && part.bytes[end] != stop {
        end += 1;
    }
    part.split_at(end)
}
