// What makes a file no mesh.
use crate::scan::Span;
use thiserror::Error;

/// The first fault of a file, with its line or facet from 1, or out-of-memory.
#[derive(Clone, Copy, Debug, PartialEq, Eq, Error)]
pub enum StlFault {
    /// Neither ASCII nor binary STL. As binary STL it says that it has this number of facets, 0 if
    /// it is too short to say so. For n facets it needs 84 + 50 n bytes.
    #[error("neither ASCII STL nor binary STL of {0} facets")]
    CutOff(u32),
    /// A coordinate of a facet is infinite or NaN.
    #[error("facet {0}: coordinate is not a finite number")]
    NotFinite(u32),
    #[error("line {0}: vertex outside a facet")]
    VertexOutside(u32),
    /// A facet ends that has fewer or more vertices than three, or that wasn't opened.
    #[error("line {0}: facet without three vertices")]
    NotThreeVertices(u32),
    /// The file ends in the facet that opened in this line.
    #[error("line {0}: the file ends in a facet")]
    EndsInFacet(u32),
    /// This word begins a line, and isn't a word of STL.
    #[error("line {0}: word is none of STL")]
    UnknownWord(u32, Span),
    /// This word is in the place of a coordinate, and isn't one.
    #[error("line {0}: coordinate is not a number")]
    NotANumber(u32, Span),
    #[error("line {0}: fewer than three coordinates")]
    FewCoordinates(u32),
    #[error("no triangles in it")]
    NoTriangles,
    /// The facet is the first of a binary STL with a coordinate of 10^15 or more in size.
    #[error("facet {0}: a coordinate of 1e15 or more")]
    LargeInFacet(u32),
    /// The same in an ASCII STL, with the line in which the facet opens.
    #[error("line {0}: a coordinate of 1e15 or more")]
    LargeInLine(u32),
    #[error("out of memory")]
    OutOfMemory,
}
