// What makes bytes no scene file.
use thiserror::Error;

/// Why no grid is read, or out-of-memory.
#[derive(Clone, Copy, Debug, PartialEq, Eq, Error)]
pub enum SceneFileFault {
    /// The bytes aren't the JSON of a scene: no text, no JSON, or no step or offset in range.
    #[error("not a scene file")]
    NotAScene,
    #[error("out of memory")]
    OutOfMemory,
}
