// The stages of a run.
use steal_pool::OpenGate;

/// The stages of a run that are shown by their names. The boxes come between `Snapping` and
/// `Triangles`: they have a gate, which is told of each box.
#[derive(Clone, Copy, Debug, PartialEq, Eq)]
pub enum Stage {
    /// A file is taken apart.
    Reading,
    /// The corners are put on the grid.
    Snapping,
    /// The faces are cut into triangles.
    Triangles,
    /// The corners are rounded, and the bytes of the file are made.
    Writing,
}

/// A run calls it when it comes to another stage.
pub trait Stages {
    /// Called before the run begins the stage, or a part of it.
    fn begin(&self, stage: Stage);
}

/// The open gate takes no notice of stages, either.
impl Stages for OpenGate {
    fn begin(&self, _stage: Stage) {}
}
