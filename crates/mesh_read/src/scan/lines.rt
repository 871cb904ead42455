// Lines, and lines without their comments.
ghost use Rattle.std.specs.Prelude.{◌≡◌, ◌+◌, ◌<◌, ◌≤◌, ◌^◌, [], ◌∷◌, length, MatchOption, IfSome};
ghost use Rattle.mesh_read.specs.Scan.Parts.{piece_of, lines_in, lines_of_file, after_line, uncommented};

use crate::scan::cut::cut_before;
use crate::scan::part::Part;

const MARK: [u8; 3] = [0xEF, 0xBB, 0xBF];

// The bytes of a file without a byte order mark at its beginning.
pub(crate) fn part_behind_mark<'a>(bytes: &'a [u8]) -> Part<'a>
    requires { length bytes.now < 2 ^ 31 }
    ensures { lines_in result ≡ lines_of_file bytes.now }
{
    let file = Part::of_file(bytes);
    if bytes.starts_with(&MARK) {
        file.split_at(3).1
    } else {
        file
    }
}

/// The first line, without the line feed that ends it, and what follows. None if no byte is left.
pub fn next_line<'a>(part: Part<'a>) -> Option<(Part<'a>, Part<'a>)>
    ensures lines { MatchOption result (lines_in part.entry ≡ [])
        (λ p. lines_in part.entry ≡ piece_of p.0 ∷ lines_in p.1) }
    ensures rest { IfSome result (λ p. p.1.bytes.now ≡ after_line part.entry.bytes.now) }
    ensures within { IfSome result (λ p.
        length p.0.bytes.now + length p.1.bytes.now ≤ length part.entry.bytes.now) }
    ensures shorter { IfSome result (λ p. length p.1.bytes.now < length part.entry.bytes.now) }
    ensures further { IfSome result (λ p. part.entry.start < p.1.start) }
{
    if part.bytes.is_empty() {
        return None;
    }
    let (line, rest) = cut_before(part, b'\n');
    if rest.bytes.is_empty() {
        return Some((line, rest));
    }
    Some((line, rest.split_at(1).1))
}

/// The line up to its first `#`.
pub fn without_comment<'a>(line: Part<'a>) -> Part<'a>
    ensures { piece_of result ≡ uncommented (piece_of line.entry) }
{
    cut_before(line, b'#').0
}
