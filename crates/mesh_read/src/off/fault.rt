// What makes a file no mesh.
ghost use Rattle.std.specs.Prelude.{◌≡◌};
ghost use Rattle.mesh_read.specs.Off.ReadOff.{of_flaw};

use crate::scan::Span;
use crate::surface::Flaw;
use thiserror::Error;

/// The first fault of a file, or out-of-memory. Lines are counted from 1.
#[derive(Clone, Copy, Debug, PartialEq, Eq, Error)]
pub enum OffFault {
    /// The first word is no keyword (`OFF`, or `COFF` or another with letters before it), and no
    /// natural number.
    #[error("no OFF at the beginning")]
    NoOff,
    /// The keyword in this line, `4OFF` or one that ends so, gives each vertex four coordinates.
    #[error("line {0}: four coordinates a vertex")]
    MoreCoordinates(u32),
    /// Two numbers don't follow the keyword, in its line or the next, or there is one without it.
    #[error("OFF has no counts")]
    NoCounts,
    /// There are fewer lines than vertices and faces.
    #[error("fewer lines than the counts say")]
    FewLines,
    /// The vertex in this line has fewer than three coordinates.
    #[error("line {0}: fewer than three coordinates")]
    FewCoordinates(u32),
    /// A coordinate in this line isn't a decimal: the first of the vertex that isn't, with its
    /// bytes.
    #[error("line {0}: not a number")]
    NotANumber(u32, Span),
    /// This line isn't a face: a number of corners, at least three, and as many indices of
    /// vertices.
    #[error("line {0}: face not understood")]
    Face(u32),
    /// There are no faces.
    #[error("no triangles in it")]
    NoTriangles,
    /// The face in this line is the first with a coordinate of 10^15 or more in size.
    #[error("line {0}: a coordinate of 1e15 or more")]
    TooLarge(u32),
    #[error("out of memory")]
    OutOfMemory,
}

impl From<Flaw> for OffFault {
    ghost from_gives = { λ flaw e. e ≡ of_flaw flaw };

    fn from(flaw: Flaw) -> OffFault {
        match flaw {
            Flaw::NoTriangles => OffFault::NoTriangles,
            Flaw::TooLarge(line) => OffFault::TooLarge(line),
        }
    }
}
