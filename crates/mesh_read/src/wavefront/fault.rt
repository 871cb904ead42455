// What makes a file no mesh.
ghost use Rattle.std.specs.Prelude.{◌≡◌};
ghost use Rattle.mesh_read.specs.Wavefront.Faults.{fault_of, of_flaw};

use crate::surface::Flaw;
use thiserror::Error;

/// The first fault of a file, or out-of-memory. Lines are counted from 1, and a line that is joined
/// from several has the number of the first of them.
#[derive(Clone, Copy, Debug, PartialEq, Eq, Error)]
pub enum WavefrontFault<'a> {
    /// The vertex in this line has fewer than three coordinates.
    #[error("line {0}: fewer than three coordinates")]
    FewCoordinates(u32),
    /// This word is the first coordinate of the vertex in this line that isn't a decimal.
    #[error("line {0}: coordinate is not a number")]
    NotANumber(u32, &'a [u8]),
    /// This reference is the first of the face in this line that names no vertex before the line.
    #[error("line {0}: reference names no vertex before it")]
    UnknownVertex(u32, &'a [u8]),
    /// The face in this line has fewer than three corners.
    #[error("line {0}: face with fewer than three corners")]
    FewCorners(u32),
    /// The file has no face.
    #[error("no triangles in it")]
    NoTriangles,
    /// The face in this line is the first with a coordinate of 10^15 or more in size.
    #[error("line {0}: a coordinate of 1e15 or more")]
    TooLarge(u32),
    #[error("out of memory")]
    OutOfMemory,
}

impl<'a> From<Flaw> for WavefrontFault<'a> {
    ghost from_gives = { λ flaw e. fault_of e ≡ of_flaw flaw };

    fn from(flaw: Flaw) -> WavefrontFault<'a> {
        match flaw {
            Flaw::NoTriangles => WavefrontFault::NoTriangles,
            Flaw::TooLarge(line) => WavefrontFault::TooLarge(line),
        }
    }
}
