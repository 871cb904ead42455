// What makes a file no mesh.
use crate::file::unread::UnreadFormat;
use mesh_gltf::GltfFault;
use mesh_ply::PlyFault;
use mesh_read::{OffFault, StlFault, WavefrontFault};
use thiserror::Error;

/// The first fault of a file, or out-of-memory. The fault of a reader is never its out-of-memory,
/// and that of an STL is never that it is cut off: both are faults of their own.
#[derive(Clone, Copy, Debug, PartialEq, Eq, Error)]
pub enum FileFault<'a> {
    /// Its name ends in `.stl`, but it is neither binary nor ASCII STL. As binary STL it says that
    /// it has this number of facets, 0 if it is too short to say so.
    #[error("neither ASCII STL nor binary STL of {0} facets")]
    CutOff(u32),
    #[error("{0}")]
    Stl(StlFault),
    #[error("{0}")]
    Ply(PlyFault),
    #[error("{0}")]
    Off(OffFault),
    #[error("{0}")]
    Gltf(GltfFault),
    #[error("{0}")]
    Wavefront(WavefrontFault<'a>),
    /// It is of no format that is read, and begins as a file of this one does.
    #[error("a format that isn't read")]
    Unread(UnreadFormat),
    #[error("out of memory")]
    OutOfMemory,
}
