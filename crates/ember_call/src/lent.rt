// What a caller lends.

/// A word of the command line. (As in C, a slice is its address and its length here, so that an array
/// of C's needs no copy.)
#[repr(C)]
#[derive(Clone, Copy)]
pub struct Lent<'a> {
    pub bytes: &'a [u8],
}

/// A file, by its name.
#[repr(C)]
#[derive(Clone, Copy)]
pub struct LentFile<'a> {
    pub name: &'a [u8],
    pub bytes: &'a [u8],
}
