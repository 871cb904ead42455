// The formats of text.

/// How a mesh is written as text.
#[derive(Clone, Copy, Debug, PartialEq, Eq)]
pub enum TextFormat {
    Obj,
    /// ASCII PLY, whose coordinates are of the type double.
    Ply,
    Off,
}
