// Bytes of a file, with their place.
ghost use Rattle.std.specs.Prelude.{◌+◌, ◌<◌, ◌^◌, length};

/// A range of bytes of a file: from `start` on, up to and without `end`, both counted from 0.
#[derive(Clone, Copy, Debug, PartialEq, Eq)]
pub struct Span {
    pub start: u32,
    pub end: u32,
}

/// Some bytes of a file, and how many bytes of the file are before them. A file has fewer than
/// 2^31.
#[derive(Clone, Copy)]
pub struct Part<'a> {
    pub start: u32,
    pub bytes: &'a [u8],
    ghost within: { start + length bytes.now < 2 ^ 31 },
}
