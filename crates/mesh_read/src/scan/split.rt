// A file as a part, the range of a part, and its two parts.
ghost use Rattle.std.specs.Prelude.{◌≡◌, ◌+◌, ◌<◌, ◌≤◌, ◌^◌, length, take, drop};
ghost use Rattle.mesh_read.specs.Scan.Parts.{span_of, piece_of};

use crate::scan::part::{Part, Span};

impl<'a> Part<'a> {
    /// All bytes of a file.
    pub fn of_file(bytes: &'a [u8]) -> Part<'a>
        requires { length bytes.now < 2 ^ 31 }
        ensures start { result.start ≡ 0 }
        ensures bytes { result.bytes.now ≡ bytes.now }
    {
        Part { start: 0, bytes }
    }

    /// The range of these bytes.
    pub fn span(&self) -> Span
        ensures { result ≡ span_of (piece_of self.now) }
    {
        Span {
            start: self.start,
            end: self.start + self.bytes.len() as u32,
        }
    }

    // The first `count` bytes, and those after them.
    pub(crate) fn split_at(self, count: usize) -> (Part<'a>, Part<'a>)
        requires { count ≤ length self.bytes.now }
        ensures first { (result.0.start ≡ self.entry.start) × (result.0.bytes.now ≡ take count self.entry.bytes.now) }
        ensures second { (result.1.start ≡ self.entry.start + count)
            × (result.1.bytes.now ≡ drop count self.entry.bytes.now) }
    {
        let (first, second) = self.bytes.split_at(count);
        (
            Part {
                start: self.start,
                bytes: first,
            },
            Part {
                start: self.start + count as u32,
                bytes: second,
            },
        )
    }
}
