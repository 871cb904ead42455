// Directed segments on lines of planes.
ghost use Rattle.mesh_certificate.specs.Certificate.Segments.{AreNumbers};

/// A directed segment on a line of an oriented plane. Planes, lines and corners are numbers:
/// equal ones mean one plane, one line, one corner.
#[derive(Clone, Copy, Debug, PartialEq, Eq)]
pub struct Segment {
    pub plane: u32,
    pub line: u32,
    pub start: u32,
    pub end: u32,
    ghost sized: { AreNumbers plane line start end },
}
