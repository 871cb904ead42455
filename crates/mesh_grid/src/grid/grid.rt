// A grid.
use crate::snap::{GridStep, Offset};

/// A grid of whole numbers: along each axis the number g means g + offset steps.
#[derive(Clone, Copy, Debug, PartialEq, Eq)]
pub struct Grid {
    pub step: GridStep,
    pub offset: Offset,
}
