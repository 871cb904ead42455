// A face as it is written.
ghost use Rattle.ember_model.specs.Valid.{IsValidPlane};

use ember_model::Plane;
use ember_point::Meet;

/// The plane of an edge, and the corner at which the edge starts.
#[derive(Clone, Copy)]
pub struct CorneredEdge {
    pub plane: Plane,
    pub start: Meet,
    ghost valid: { IsValidPlane plane },
}

/// A face with its corners, as a face file has it.
#[derive(Drop)]
pub struct CorneredFace {
    pub support: Plane,
    pub edges: Vec<CorneredEdge>,
    ghost valid: { IsValidPlane support },
}
