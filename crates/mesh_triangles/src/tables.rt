// The tables of planes, lines and corners.
use ember_model::Plane;
use mesh_certificate::LineKey;
use mesh_point::SpacePoint;

/// What the numbers of planes, lines and corners denote.
#[derive(Clone, Copy)]
pub struct TablesView<'a> {
    pub planes: &'a [Plane],
    pub lines: &'a [LineKey],
    pub corners: &'a [SpacePoint],
}
