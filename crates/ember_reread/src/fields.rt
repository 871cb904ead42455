// Fields of a line.

/// Four numbers, of a plane or of a corner.
#[derive(Clone, Copy)]
pub(crate) struct Four {
    pub x: i128,
    pub y: i128,
    pub z: i128,
    pub w: i128,
}
